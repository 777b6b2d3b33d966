// What calls answer. specs/Told sets out the documents' numbers and values for each case.
#![tactic(auto)]

ghost use Rattle.std.specs.Prelude.{◌≡◌, [], ◌∷◌, ◌*◌, ◌≤◌};
ghost use Rattle.refusals.specs.Answers.{bytes_up, code};
ghost use Rattle.refusals.specs.Told.{told_refusal, told};

// A node of a width table: level from 1, pass 1 to 3, node 1 to 6.
#[derive(Clone, Copy)]
pub struct NodePlace {
    pub level: u8,
    pub pass: u8,
    pub node: u8,
}

#[derive(Clone, Copy)]
pub enum Refusal {
    CutShort,
    WrongTag,
    WrongLength,
    OutsideLimits,
    TrailingBytes,
    DoesNotFit(NodePlace),
    ErrorTooLarge(NodePlace),
    SideNotAdmitted,
    SliceTooShort,
    PixelTooLarge,
    NoPicture,
    OutsideWidth,
    NotViewable,
    OutOfTurn,
}

// A place as the bytes above the lowest: level, pass, node.
fn place_code(place: NodePlace) -> u32
    ensures { (result ≡ 256 * bytes_up (place.level ∷ place.pass ∷ place.node ∷ [])) × (result ≤ 4294967040) }
{
    256 * (place.level as u32) + 65536 * (place.pass as u32) + 16777216 * (place.node as u32)
}

impl Refusal {
    // The number of a refusal.
    pub fn number(self) -> u8
        ensures { result ≡ (told_refusal self).0 }
    {
        match self {
            Refusal::CutShort => 1,
            Refusal::WrongTag => 2,
            Refusal::WrongLength => 3,
            Refusal::OutsideLimits => 4,
            Refusal::TrailingBytes => 5,
            Refusal::DoesNotFit(_) => 6,
            Refusal::ErrorTooLarge(_) => 7,
            Refusal::SideNotAdmitted => 8,
            Refusal::SliceTooShort => 9,
            Refusal::PixelTooLarge => 10,
            Refusal::NoPicture => 11,
            Refusal::OutsideWidth => 12,
            Refusal::NotViewable => 13,
            Refusal::OutOfTurn => 14,
        }
    }

    // The values of a refusal, in the bytes above its number: those of 6 and 7.
    fn values_code(self) -> u32
        ensures { (result ≡ 256 * bytes_up (told_refusal self).1) × (result ≤ 4294967040) }
    {
        match self {
            Refusal::DoesNotFit(place) | Refusal::ErrorTooLarge(place) => place_code(place),
            _ => 0,
        }
    }

    // A refusal as one number: its own in the lowest byte, its values above.
    pub fn code(self) -> u32
        ensures { result ≡ bytes_up ((told_refusal self).0 ∷ (told_refusal self).1) }
    {
        (self.number() as u32) + self.values_code()
    }
}

// The answer of a call that hands nothing else back, as one number: 0 where it was done.
pub fn code(answer: Result<(), Refusal>) -> u32
    ensures { result ≡ code (told answer) }
{
    match answer {
        Ok(()) => 0,
        Err(why) => why.code(),
    }
}
