//! Why a text has no answer.
ghost use Rattle.std.specs.Prelude.{◌≡◌};
ghost use Rattle.forms.specs.Names.{cause_name};

/// Why a text isn't answered, in the order in which the causes are judged: those of reading first. `Range` is judged at reading and
/// again, behind `Kind`, at writing.
#[derive(Clone, Copy, Debug, PartialEq, Eq)]
pub enum Cause {
    /// The text hasn't the form's shape.
    Syntax,
    /// The text has the shape, and its fields name no day or no time of day, or an offset of a day or more.
    NoSuchMoment,
    /// A number of the text, or the value, leaves the bounds of its form.
    Range,
    /// The target form has no values of this kind.
    Kind,
    /// The value is no whole number of the target form's least unit.
    Precision,
    /// The target form's text would be read as another value.
    Ambiguous,
}

impl Cause {
    /// The cause's name, as a reply has it behind `refused `: `Cause::Range.name()` is `Range`.
    pub fn name(self) -> &'static str
        ensures { result.now ≡ cause_name self }
    {
        match self {
            Cause::Syntax => "Syntax",
            Cause::NoSuchMoment => "NoSuchMoment",
            Cause::Range => "Range",
            Cause::Kind => "Kind",
            Cause::Precision => "Precision",
            Cause::Ambiguous => "Ambiguous",
        }
    }
}
