// The words of a node's text, with the blanks around them.

// ---- lines

pub(crate) const NODE: &[u8] = b"node ";

pub(crate) const OUTPUT: &[u8] = b") returns (ok: bool);\n";

pub(crate) const VAR: &[u8] = b"var\n";

pub(crate) const LET: &[u8] = b"let\n";

pub(crate) const TEL: &[u8] = b"tel\n";

pub(crate) const INDENT: &[u8] = b"  ";

pub(crate) const END: &[u8] = b";\n";

// ---- names and their types

pub(crate) const INPUT_END: &[u8] = b": bool";

pub(crate) const NEXT_INPUT: &[u8] = b"; ";

pub(crate) const TRUTH_END: &[u8] = b": bool;\n";

pub(crate) const NUMBER_END: &[u8] = b": int;\n";

// ---- right sides

pub(crate) const IS: &[u8] = b" = ";

pub(crate) const ARROW_PRE: &[u8] = b" -> pre ";

pub(crate) const IF: &[u8] = b"if ";

pub(crate) const THEN: &[u8] = b" then ";

pub(crate) const ELSE: &[u8] = b" else ";

pub(crate) const OR: &[u8] = b" or ";

pub(crate) const OPEN: &[u8] = b"(";

pub(crate) const CLOSE: &[u8] = b")";

pub(crate) const TRUE: &[u8] = b"true";

pub(crate) const FALSE: &[u8] = b"false";
