// A view of which some blocks were cut.
ghost use Rattle.std.specs.Prelude.{◌≡◌};
ghost use Rattle.dg_model.specs.Marks.{is_marked};

use dg_io::{Fetched, View};

/// A view whose marked blocks are gone, whatever the view below has. No call of the view below is made for them.
#[derive(Drop)]
pub struct CutView<'a, V> {
    view: V,
    cut: &'a [bool],
}

impl<'a, V> CutView<'a, V> {
    /// The view without the marked blocks. Mark b is for block b; a block without a mark isn't cut.
    pub fn new(view: V, cut: &'a [bool]) -> CutView<'a, V>
        ensures view { result.view ≡ view }
        ensures cut { result.cut.now ≡ cut.now }
    {
        CutView { view, cut }
    }

    /// Whether a block was cut.
    fn is_cut(&self, block: u32) -> bool
        ensures { result ≡ is_marked self.now.cut.now block }
    {
        match self.cut.get(block as usize) {
            Some(cut) => *cut,
            None => false,
        }
    }
}

impl<'a, V: View> View for CutView<'a, V> {
    ghost use Rattle.std.specs.Prelude.{◌≡◌, ◌||◌, refl};
    ghost use Rattle.std.proofs.Common.{◌∙◌};
    ghost use Rattle.dg_model.specs.Marks.{is_marked};
    ghost use Rattle.dg_regroup.specs.CutViews.{uncut};
    ghost use Rattle.dg_regroup.specs.CutLaws.{fetched_two};

    ghost stands_for = { λ s v. V.stands_for s.view v };

    ghost tells = { λ s. V.tells s.view };

    ghost is_gone = { λ s b. is_marked s.cut.now b || V.is_gone s.view b };

    ghost count = { λ s. V.count s.view };

    ghost size = { λ s. V.size s.view };

    ghost is_sound = { λ s. V.is_sound s.view };

    ghost goes_on = { λ a b. V.goes_on a.view b.view × (b.cut.now ≡ a.cut.now) };

    ghost fetched = { λ a blocks b. V.fetched a.view (uncut a.cut.now blocks) b.view × (b.cut.now ≡ a.cut.now) };

    fn fetch(&mut self, block: u32, buf: &mut [u8]) -> Fetched {
        if self.is_cut(block) {
            return Fetched::Gone;
        }
        self.view.fetch(block, buf)
    }

    fn gone(&self, block: u32) -> bool {
        self.is_cut(block) || self.view.gone(block)
    }

    fn shape(&self) -> (u32, u32) {
        self.view.shape()
    }

    ghost unchanged = { λ s. (V.unchanged s.view, refl) };

    ghost further = { λ a b c first second. (V.further a.view b.view c.view (first.0) (second.0), second.1 ∙ first.1) };

    ghost fetched_none = { λ s. (V.fetched_none s.view, refl) };

    ghost fetched_both = { λ a b c x y first second. fetched_two V.fetched V.fetched_both a.view b.view c.view a.cut.now b.cut.now c.cut.now x y first second };
}
