// The boundary for a copy.
ghost use Rattle.std.specs.Prelude.{◌≡◌, ◌≢◌, ◌<◌, IfSome};
ghost use Rattle.dg_model.specs.Copies.{emptier, emptiest};
ghost use Rattle.dg_store.specs.Stores.{IsSound, shape_of, table_of};

use dg_io::Rack;
use dg_store::Store;

// A boundary, unless one has been found that has no more used slots.
fn emptier<R: Rack>(store: &Store<R>, best: Option<u8>, boundary: u8) -> Option<u8>
    requires boundary { boundary < (shape_of store.now).b }
    requires best { IfSome best (λ s. s < (shape_of store.now).b) }
    ensures { result ≡ emptier (table_of store.now) best boundary }
{
    match best {
        None => Some(boundary),
        Some(other) => {
            if store.map().used(boundary) < store.map().used(other) {
                Some(boundary)
            } else {
                Some(other)
            }
        }
    }
}

/// The boundary other than a home with the fewest used slots, the lowest number among equals.
pub fn emptiest<R: Rack>(store: &Store<R>, home: u8) -> Option<u8>
    requires { IsSound R.Rack store.now }
    ensures emptiest { result ≡ emptiest (table_of store.now) home }
    ensures within { IfSome result (λ s. s < (shape_of store.now).b) }
    ensures other { IfSome result (λ s. s ≢ home) }
{
    let mut best = None;
    for boundary in 0..store.shape().b {
        if boundary != home {
            best = emptier(store, best, boundary);
        }
    }
    best
}
