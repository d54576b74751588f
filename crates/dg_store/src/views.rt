// The store as a view of its blocks.
ghost use Rattle.dg_model.specs.Sites.{is_gone};
ghost use Rattle.dg_store.specs.Stores.{shape_of, table_of, members_of, IsSound, StandsFor, TellsAll};
ghost use Rattle.dg_store.specs.Views.{Fetches, ReadsOn};
ghost use Rattle.dg_store.specs.ReadLaws.{reads_none, reads_both, fetches_none, fetches_both};

use crate::Store;
use dg_io::{Fetched, Rack, View};

impl<R: Rack> View for Store<R> {
    ghost stands_for = { λ s v. StandsFor R.Rack s v };

    ghost tells = { λ s. TellsAll R.Rack s };

    ghost is_gone = { λ s b. is_gone (table_of s) (members_of s) b };

    ghost count = { λ s. (shape_of s).n };

    ghost size = { λ s. (shape_of s).l };

    ghost is_sound = { λ s. IsSound R.Rack s };

    ghost goes_on = { λ a b. ReadsOn R.Rack a b };

    ghost fetched = { λ a blocks b. Fetches R.Rack a blocks b };

    fn fetch(&mut self, block: u32, buf: &mut [u8]) -> Fetched {
        self.read(block, buf)
    }

    fn gone(&self, block: u32) -> bool {
        self.is_gone(block)
    }

    fn shape(&self) -> (u32, u32) {
        let shape = self.shape();
        (shape.l, shape.n)
    }

    ghost unchanged = { λ s. reads_none _ s };

    ghost further = { λ a b c first second. reads_both _ a b c first second };

    ghost fetched_none = { λ s. fetches_none _ s };

    ghost fetched_both = { λ a b c x y first second. fetches_both _ a b c x y first second };
}
