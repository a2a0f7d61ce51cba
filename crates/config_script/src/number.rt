//! Integers as a script spells them.
ghost use Rattle.std.specs.Str.{chars};
ghost use Rattle.config_script.specs.Digits.{IsPlain};

/// An integer of any size: a sign, and the digits of its magnitude without leading zeros.
#[derive(Clone, Copy, Debug)]
pub(crate) struct Number<'a> {
    pub(crate) is_negative: bool,
    pub(crate) digits: &'a str,

    ghost plain: { IsPlain (chars digits.now) },
}
