//! The name of an enum's variant.

/// Returns the name of a value's variant: `variant_name!(fault, Fault: TooMany, OutOfMemory)`. Each variant is listed
/// once, without its fields; one that is missing is a compile error, as in a `match`.
#[macro_export]
macro_rules! variant_name {
    ($value:expr, $name:ident: $($variant:ident),+ $(,)?) => {
        match $value {
            $($name::$variant { .. } => stringify!($variant),)+
        }
    };
}
