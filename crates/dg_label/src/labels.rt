// What is kept of the last label.
ghost use Rattle.std.specs.Prelude.{◌≡◌, ◌≢◌, ◌<◌, ◌^◌, ℕ, IfSome, true};
ghost use Rattle.dg_io.specs.Commits.{is_marked};
ghost use Rattle.dg_label.specs.Labels.{NotesLong, next_number};
ghost use Rattle.dg_label.specs.Labels.{is_long as is_long_under};

/// The numbers of the last label on the members of an array.
#[derive(Clone, Copy, Debug, PartialEq, Eq)]
pub struct KeptLabel {
    /// 1 or 2.
    pub format: u8,
    /// The number of the save, counted from 1.
    pub sequence: u64,
    /// Whether nothing was written since that save.
    pub sealed: bool,
    /// The bytes of the body.
    pub body: u32,
    /// Bit q for member q: whether it is as long as format 2 says. Beneath a label of that format each one is, whichever bits are set.
    pub long: u32,
}

/// The number of the next save.
pub fn number_after(label: &Option<KeptLabel>) -> u64
    requires { IfSome label.now (λ kept. kept.sequence < 2 ^ 63) }
    ensures { result ≡ next_number label.now }
{
    match label {
        None => 1,
        Some(kept) => kept.sequence + 1,
    }
}

/// Whether a member that isn't out is as long as format 2 says.
pub fn is_long(label: &Option<KeptLabel>, member: u8) -> bool
    requires { member < 32 }
    ensures { result ≡ is_long_under label.now member }
{
    match label {
        None => true,
        Some(kept) => kept.format == 2 || kept.long >> member & 1 == 1,
    }
}

/// The bits of members with that of one more.
pub fn with_bit(bits: u32, member: u8) -> u32
    requires { member < 32 }
    ensures here { is_marked result member ≡ true }
    ensures others { (q : ℕ) → q ≢ member → is_marked result q ≡ is_marked bits q }
{
    bits | 1 << member
}

/// Notes that a member is as long as format 2 says.
pub fn note_long(label: &mut Option<KeptLabel>, member: u8)
    requires { member < 32 }
    ensures { NotesLong member label.old label.new }
{
    if let Some(kept) = *label {
        *label = Some(KeptLabel {
            long: with_bit(kept.long, member),
            ..kept
        });
    }
}
