/// An event of a name: each field is the variable that is called so, and those in brackets are widened.
#[macro_export]
macro_rules! event {
    ($kind:ident, $name:ident, [$($number:ident),*] $(, $field:ident)*) => {
        Event::$kind { name: $name, $($number: u64::from($number),)* $($field),* }
    };
}

pub(crate) use event;
