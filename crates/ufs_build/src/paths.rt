// The directory and the name in a path.
ghost use Rattle.std.specs.Prelude.{◌≡◌, ◌≤◌, ◌-◌, ◌==◌, ◌||◌, ℕ, Some, slice_get, true, false, length, drop};
ghost use Rattle.std.specs.List.{list_any};
ghost use Rattle.std.specs.Bool.{OnTrue};
ghost use Rattle.std.specs.Cmp.Lexicographic.{pointwise};
ghost use Rattle.ufs_build.specs.Items.{dot, dot_dot, has_place, is_dots, is_slash, name_of, parent_of};
ghost use Rattle.ufs_model.specs.Paths.{is_path};

use ufs_model::is_path;

/// Where the name behind the last slash begins.
fn name_start(path: &[u8]) -> usize
    requires { slice_get path.now 0 ≡ Some 47 }
    ensures some { 1 ≤ result }
    ensures inside { result ≤ length path.now }
    ensures slash { slice_get path.now (result - 1) ≡ Some 47 }
    ensures last { list_any is_slash (drop result path.now) ≡ false }
{
    let mut start = path.len();
    while path[start - 1] != b'/' {
        start -= 1;
    }
    start
}

/// The bytes before the last slash, and behind it.
pub fn split_path(path: &[u8]) -> (&[u8], &[u8])
    requires { slice_get path.now 0 ≡ Some 47 }
    ensures parent { result.0.now ≡ parent_of path.now }
    ensures name { result.1.now ≡ name_of path.now }
{
    let (front, name) = path.split_at(name_start(path));
    let (parent, _) = front.split_at(front.len() - 1);
    (parent, name)
}

/// Whether two names or paths are the same.
pub fn is_same(one: &[u8], other: &[u8]) -> bool
    ensures { result ≡ pointwise ◌==◌ one.now other.now }
{
    one == other
}

/// Whether a name is one of a directory's own.
fn is_dots(name: &[u8]) -> bool
    ensures { result ≡ is_dots name.now }
{
    is_same(name, b".") || is_same(name, b"..")
}

/// Whether a path has a name, which isn't one of a directory's own.
#[tactic(auto, unfolding(crate::specs::Items::has_place))]
pub fn has_place(path: &[u8]) -> bool
    ensures value { result ≡ has_place path.now }
    ensures slash { OnTrue result (slice_get path.now 0 ≡ Some 47) }
    ensures short { OnTrue result (length (name_of path.now) ≤ 255) }
{
    if !is_path(path) || path.len() < 2 {
        return false;
    }
    let (_, name) = split_path(path);
    !is_dots(name)
}
