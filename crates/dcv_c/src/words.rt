// What is put of C: its words and symbols, with the spaces and the ends of lines about them.

pub(crate) const INDENT: &[u8] = b"  ";

pub(crate) const SPACE: &[u8] = b" ";

pub(crate) const NEWLINE: &[u8] = b"\n";

pub(crate) const END: &[u8] = b";\n";

pub(crate) const OPENING: &[u8] = b")\n{\n";

pub(crate) const CLOSING: &[u8] = b"}\n";

pub(crate) const COMMA: &[u8] = b", ";

pub(crate) const STATIC: &[u8] = b"static ";

pub(crate) const INT: &[u8] = b"int";

pub(crate) const VOID: &[u8] = b"void";

pub(crate) const RETURN: &[u8] = b"return ";

pub(crate) const IF: &[u8] = b"if (";

pub(crate) const THEN: &[u8] = b") ";

pub(crate) const IS: &[u8] = b" == ";

pub(crate) const OR: &[u8] = b" || ";

pub(crate) const BECOMES: &[u8] = b" = ";

pub(crate) const CHOICE: &[u8] = b" ? ";

pub(crate) const OTHERWISE: &[u8] = b" : ";

// What the name of a parameter has before that of its variable.
pub(crate) const VARIABLE: &[u8] = b"v_";
