// Answers that name a boundary: by its number in the array's first line, and not by its place among those in use.
ghost use Rattle.std.specs.Prelude.{◌≡◌};
ghost use Rattle.dg_volume.specs.Numbers.{diffused_by, save_told, tended_by, unsettled_by};

use crate::in_use::InUse;
use crate::settles::{TendRun, Unsettled};
use dg_hot::DiffuseAnswer;
use dg_label::SaveAnswer;

impl InUse {
    /// Why a volume isn't settled.
    pub(crate) fn unsettled(&self, unsettled: Unsettled) -> Unsettled
        ensures { result ≡ unsettled_by self.now.live.items unsettled }
    {
        match unsettled {
            Unsettled::Lost(place) => Unsettled::Lost(self.number(place)),
            Unsettled::Malformed(kind, n) => Unsettled::Malformed(kind, n),
            Unsettled::NoSpace(bad) => Unsettled::NoSpace(bad),
        }
    }

    /// What became of moves.
    pub(crate) fn tended(&self, run: TendRun) -> TendRun
        ensures { result ≡ tended_by self.now.live.items run }
    {
        match run {
            TendRun::Tended { moved, left } => TendRun::Tended { moved, left },
            TendRun::Lost(place) => TendRun::Lost(self.number(place)),
            TendRun::NoSpace(bad) => TendRun::NoSpace(bad),
        }
    }

    /// What became of a spreading of copies.
    pub(crate) fn diffused(&self, answer: DiffuseAnswer) -> DiffuseAnswer
        ensures { result ≡ diffused_by self.now.live.items answer }
    {
        match answer {
            DiffuseAnswer::Diffused(count) => DiffuseAnswer::Diffused(count),
            DiffuseAnswer::Lost(place) => DiffuseAnswer::Lost(self.number(place)),
        }
    }

    /// What became of a save.
    pub(crate) fn saved(&self, answer: SaveAnswer) -> SaveAnswer
        ensures { result ≡ save_told self.now.live.items answer }
    {
        match answer {
            SaveAnswer::Saved(sequence) => SaveAnswer::Saved(sequence),
            SaveAnswer::Lost(place) => SaveAnswer::Lost(self.number(place)),
        }
    }
}
