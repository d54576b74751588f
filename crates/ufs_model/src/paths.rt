// Paths, by their bytes.
ghost use Rattle.std.specs.Prelude.{◌≡◌, ◌≤◌, ◌<◌, ◌∷◌, ◌==◌, ◌||◌, length, true};
ghost use Rattle.std.specs.List.{list_all, list_any, position};
ghost use Rattle.ufs_model.specs.Chunks.{is_name};
ghost use Rattle.ufs_model.specs.Paths.{is_path, is_path_name, names_after, names_of};

/// Bytes of the longest name (`MAXNAMLEN`).
const LONGEST_NAME: usize = 255;

/// Bytes of the longest path (`MAXPATHLEN` counts a zero byte at its end).
const LONGEST_PATH: usize = 1023;

/// Whether there is a byte that no name has.
fn has_end(name: &[u8]) -> bool
    ensures { result ≡ list_any (λ b. (b == 0) || (b == 47)) name.now }
{
    name.iter().any(|byte| *byte == 0 || *byte == b'/')
}

/// Whether bytes are a name: some, none of them 0 or a slash.
#[tactic(auto, unfolding(crate::specs::Chunks::is_name))]
pub fn is_name(name: &[u8]) -> bool
    ensures { result ≡ is_name name.now }
{
    !name.is_empty() && !has_end(name)
}

/// Whether bytes are a name of a path.
#[tactic(auto, unfolding(crate::specs::Paths::is_path_name))]
fn is_path_name(name: &[u8]) -> bool
    ensures { result ≡ is_path_name name.now }
{
    is_name(name) && name.len() <= LONGEST_NAME
}

/// Where the first slash is, if there is one.
fn first_slash(bytes: &[u8]) -> Option<usize>
    ensures { result ≡ position (λ b. b == 47) bytes.now }
{
    bytes.iter().position(|byte| *byte == b'/')
}

/// The name after the slash at the front, up to the next slash, and what comes from there on.
pub fn next_name(path: &[u8]) -> (&[u8], &[u8])
    requires { 1 ≤ length path.now }
    ensures names { names_after path.now ≡ result.0.now ∷ names_after result.1.now }
    ensures less { length result.1.now < length path.now }
{
    let (_, after) = path.split_at(1);
    let end = first_slash(after).unwrap_or(after.len());
    after.split_at(end)
}

/// The names of a path, each with the slash in front of it: nothing of a slash alone.
pub fn path_names(path: &[u8]) -> &[u8]
    requires { is_path path.now ≡ true }
    ensures { names_after result.now ≡ names_of path.now }
{
    if path.len() == 1 {
        return &[];
    }
    path
}

/// Whether all names after slashes are names of a path.
fn are_names(path: &[u8]) -> bool
    ensures { result ≡ list_all is_path_name (names_after path.now) }
{
    let mut rest = path;
    while !rest.is_empty() {
        let (name, after) = next_name(rest);
        if !is_path_name(name) {
            return false;
        }
        rest = after;
    }
    true
}

/// Whether a path is a slash alone, or names of 1 to 255 bytes with a slash in front of each, none of
/// whose bytes is 0. It has at most 1023 bytes.
#[tactic(auto, unfolding(crate::specs::Paths::is_path))]
pub fn is_path(path: &[u8]) -> bool
    ensures { result ≡ is_path path.now }
{
    match path.first() {
        Some(first) => {
            *first == b'/' && path.len() <= LONGEST_PATH && (path.len() == 1 || are_names(path))
        }
        None => false,
    }
}
