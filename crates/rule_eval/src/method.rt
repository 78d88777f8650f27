//! A method in upper case, with the text that it was made of.
ghost use Rattle.std.specs.Prelude.{◌≡◌};
ghost use Rattle.std.specs.Str.{str_to_ascii_uppercase};

use px_base::Bytes;

// The values of a call of `Method`, and the value in upper case.
#[derive(Drop)]
pub(crate) struct UpperMethod {
    pub key: Bytes,
    pub value: Bytes,
    pub upper: Bytes,
    pub ghost is_upper: { upper ≡ str_to_ascii_uppercase value },
}
