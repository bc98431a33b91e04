//! How the rules of a grammar are written, body by body.

/// A rule with one body.
#[macro_export]
macro_rules! always {
    ($($symbol:expr),*) => {
        $crate::grammar::Production {
            alternatives: &[],
            otherwise: &[$($symbol),*],
        }
    };
}

/// A body that begins with a class, which picks it.
#[macro_export]
macro_rules! after {
    ($class:expr $(, $symbol:expr)*) => {
        $crate::grammar::Alternative {
            classes: &[$class],
            body: &[$crate::grammar::Symbol::Class($class) $(, $symbol)*],
        }
    };
}

/// A body that begins with a class, or nothing.
#[macro_export]
macro_rules! optional {
    ($class:expr $(, $symbol:expr)*) => {
        $crate::grammar::Production {
            alternatives: &[$crate::after!($class $(, $symbol)*)],
            otherwise: &[],
        }
    };
}
