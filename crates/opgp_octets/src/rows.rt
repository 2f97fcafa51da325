//! Conversions for a table of registered numbers, whose rows are a number, a variant and a name.

/// The variant of a number; `Other` with the number if no row has it.
macro_rules! by_number {
    ($number:expr, $table:ident; $($n:literal $variant:ident $name:literal;)*) => {
        match $number {
            $($n => $table::$variant,)*
            other => $table::Other(other),
        }
    };
}

/// The number of a variant.
macro_rules! number_of {
    ($value:expr, $table:ident; $($n:literal $variant:ident $name:literal;)*) => {
        match $value {
            $($table::$variant => $n,)*
            $table::Other(number) => number,
        }
    };
}

/// The name of a variant, or `unknown`.
macro_rules! name_of {
    ($value:expr, $table:ident; $($n:literal $variant:ident $name:literal;)*) => {
        match $value {
            $($table::$variant => $name,)*
            $table::Other(_) => "unknown",
        }
    };
}

pub(crate) use by_number;
pub(crate) use name_of;
pub(crate) use number_of;
