// The phases of a volume.
ghost use Rattle.std.specs.Prelude.{◌≡◌, ◌≢◌, IfSome, MatchOption, None, Some, Option};
ghost use Rattle.dg_infer.specs.Meanings.{KeptInference};
ghost use Rattle.dg_model.specs.declared.phases.Phase.{Phase};
ghost use Rattle.dg_volume.specs.Phases.{CanReapAll};

use dg_infer::Inference;
use dg_model::Phase;
use std::mem;

/// The phase of a volume, with what is kept in it.
pub trait InPhase {
    ghost use Rattle.std.specs.Prelude.{Option};
    ghost use Rattle.dg_infer.specs.Meanings.{KeptInference};
    ghost use Rattle.dg_model.specs.declared.phases.Phase.{Phase};
    ghost use Rattle.dg_volume.specs.Phases.{kept_in, phase_in};

    /// The phase.
    ghost phase: { Self → Phase };

    /// What is inferred of the volume, where it is kept.
    ghost kept: { Self → Option KeptInference };

    /// The phase.
    fn phase(&self) -> Phase
        ensures { result ≡ phase self.now };

    /// What is inferred of the volume. It is kept in each phase but the worn one.
    fn inference(&self) -> Option<&Inference>
        ensures kept { MatchOption result (kept self.now ≡ None) (λ inference. kept self.now ≡ Some inference.now) }
        ensures worn { MatchOption result (phase self.now ≡ Phase.Worn) (λ inference. phase self.now ≢ Phase.Worn) };

    /// Gives up what is inferred of the volume.
    fn into_inference(self) -> Option<Inference>
        ensures kept { MatchOption result (kept self ≡ None) (λ inference. kept self ≡ Some inference) }
        ensures worn { MatchOption result (phase self ≡ Phase.Worn) (λ inference. phase self ≢ Phase.Worn) };

    /// Dead blocks became blocks of zeros: what is kept stays.
    fn reaped(&mut self, blocks: &[u32])
        ensures same { self.new ≡ self.old }
        ensures stands { IfSome (kept self.old) (λ inference. CanReapAll inference blocks.now) };

    /// The same phase, told only when the program runs.
    fn into_any(self) -> AnyPhase
        ensures phase { phase_in result ≡ phase self }
        ensures kept { kept_in result ≡ kept self };
}

/// Tells an inference of dead blocks that became blocks of zeros.
fn tell_reaped(inference: &mut Inference, blocks: &[u32])
    ensures same { inference.new ≡ inference.old }
    ensures stands { CanReapAll inference.old blocks.now }
{
    for place in 0..blocks.len() {
        inference.reaped(blocks[place]);
    }
}

/// It is known what blocks belong to, and nothing is promised under a loss.
#[derive(Drop)]
pub struct Loose {
    pub(crate) inference: Inference,
}

/// The volume is sound and each block is in its place.
#[derive(Drop)]
pub struct Settled {
    pub(crate) inference: Inference,
}

/// A block was written while a boundary is lost: it isn't known any more what blocks belong to.
#[derive(Drop)]
pub struct Worn;

/// One of the phases, which is told only when the program runs.
#[derive(Drop)]
pub enum AnyPhase {
    Loose(Loose),
    Settled(Settled),
    Worn(Worn),
}

impl AnyPhase {
    ghost use Rattle.std.specs.Prelude.{◌≡◌};
    ghost use Rattle.dg_volume.specs.Phases.{kept_in, phase_in};

    /// The volume is settled from now on.
    pub(crate) fn settle(&mut self)
        requires { phase_in self.old ≡ Phase.Loose }
        ensures phase { phase_in self.new ≡ Phase.Settled }
        ensures kept { kept_in self.new ≡ kept_in self.old }
    {
        *self = match mem::replace(self, AnyPhase::Worn(Worn)) {
            AnyPhase::Loose(Loose { inference }) => AnyPhase::Settled(Settled { inference }),
            other => other,
        };
    }
}

impl InPhase for Loose {
    ghost use Rattle.std.specs.Prelude.{Some};
    ghost use Rattle.dg_model.specs.declared.phases.Phase.TheVariants.{Loose as LoosePhase};

    ghost phase = { λ loose. LoosePhase };

    ghost kept = { λ loose. Some loose.inference };

    fn phase(&self) -> Phase {
        Phase::Loose
    }

    fn inference(&self) -> Option<&Inference> {
        Some(&self.inference)
    }

    fn into_inference(self) -> Option<Inference> {
        let Loose { inference } = self;
        Some(inference)
    }

    fn reaped(&mut self, blocks: &[u32]) {
        tell_reaped(&mut self.inference, blocks);
    }

    fn into_any(self) -> AnyPhase {
        AnyPhase::Loose(self)
    }
}

impl InPhase for Settled {
    ghost use Rattle.std.specs.Prelude.{Some};
    ghost use Rattle.dg_model.specs.declared.phases.Phase.TheVariants.{Settled as SettledPhase};

    ghost phase = { λ settled. SettledPhase };

    ghost kept = { λ settled. Some settled.inference };

    fn phase(&self) -> Phase {
        Phase::Settled
    }

    fn inference(&self) -> Option<&Inference> {
        Some(&self.inference)
    }

    fn into_inference(self) -> Option<Inference> {
        let Settled { inference } = self;
        Some(inference)
    }

    fn reaped(&mut self, blocks: &[u32]) {
        tell_reaped(&mut self.inference, blocks);
    }

    fn into_any(self) -> AnyPhase {
        AnyPhase::Settled(self)
    }
}

impl InPhase for Worn {
    ghost use Rattle.std.specs.Prelude.{None};
    ghost use Rattle.dg_model.specs.declared.phases.Phase.TheVariants.{Worn as WornPhase};

    ghost phase = { λ worn. WornPhase };

    ghost kept = { λ worn. None };

    fn phase(&self) -> Phase {
        Phase::Worn
    }

    fn inference(&self) -> Option<&Inference> {
        None
    }

    fn into_inference(self) -> Option<Inference> {
        None
    }

    fn reaped(&mut self, _blocks: &[u32]) {}

    fn into_any(self) -> AnyPhase {
        AnyPhase::Worn(self)
    }
}

impl InPhase for AnyPhase {
    ghost use Rattle.dg_volume.specs.Phases.{kept_in, phase_in};

    ghost phase = { phase_in };

    ghost kept = { kept_in };

    fn phase(&self) -> Phase {
        match self {
            AnyPhase::Loose(_) => Phase::Loose,
            AnyPhase::Settled(_) => Phase::Settled,
            AnyPhase::Worn(_) => Phase::Worn,
        }
    }

    fn inference(&self) -> Option<&Inference> {
        match self {
            AnyPhase::Loose(loose) => Some(&loose.inference),
            AnyPhase::Settled(settled) => Some(&settled.inference),
            AnyPhase::Worn(_) => None,
        }
    }

    fn into_inference(self) -> Option<Inference> {
        match self {
            AnyPhase::Loose(loose) => loose.into_inference(),
            AnyPhase::Settled(settled) => settled.into_inference(),
            AnyPhase::Worn(_) => None,
        }
    }

    fn reaped(&mut self, blocks: &[u32]) {
        match self {
            AnyPhase::Loose(loose) => loose.reaped(blocks),
            AnyPhase::Settled(settled) => settled.reaped(blocks),
            AnyPhase::Worn(_) => {}
        }
    }

    fn into_any(self) -> AnyPhase {
        self
    }
}
