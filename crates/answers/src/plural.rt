// Words that depend on a count.
ghost use Rattle.std.specs.Prelude.{◌≡◌};
ghost use Rattle.answers.specs.Plural.{ending, verb};

// The end of a noun: `s`, but for one.
pub(crate) fn noun_ending(count: usize) -> &'static str
    ensures { result.now ≡ ending count }
{
    if count == 1 { "" } else { "s" }
}

// `are`, or `is` for one.
pub(crate) fn to_be(count: usize) -> &'static str
    ensures { result.now ≡ verb count }
{
    if count == 1 { "is" } else { "are" }
}
