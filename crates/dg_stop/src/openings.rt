// Laws of openings.
ghost use Rattle.dg_stop.specs.Openings.{OpeningsHold, OpeningsSpare};
ghost use Rattle.dg_stop.specs.Sessions.{DoublesGiveKept, PlainsGiveNothing};

use dg_io::Rack;

/// What is reopened holds of the members that an opening takes, and they have the bytes of it.
pub fn openings_hold()
    ensures { OpeningsHold }
{}

/// What an opening writes leaves what any more members are reopened as.
pub fn openings_spare()
    ensures { OpeningsSpare }
{}

/// What a double rack keeps is what an opening of the rack behind it gives, and keeps in turn.
pub fn openings_give_kept<R: Rack>()
    ensures double { DoublesGiveKept R.Rack }
    ensures plain { PlainsGiveNothing R.Rack }
{}
