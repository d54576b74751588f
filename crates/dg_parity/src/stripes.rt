// Where the bytes of a member stand.
ghost use Rattle.std.specs.Prelude.{◌≡◌, ◌+◌, ◌*◌, ◌<◌, ◌≤◌};
ghost use Rattle.dg_parity.specs.Stripes.{stripes_of, disk_length, spot_of, beside};

/// Where a byte of a member stands.
#[derive(Clone, Copy, Debug, PartialEq, Eq)]
pub struct Spot {
    /// The disk with the byte.
    pub disk: u8,
    /// The disk with its parity.
    pub parity: u8,
    /// The place on both.
    pub place: u64,
}

/// Where byte `at` of a member stands in a group of n disks.
pub fn locate(n: u8, at: u64) -> Spot
    requires least { 3 ≤ n }
    requires most { n ≤ 8 }
    ensures { result ≡ spot_of n at }
{
    let chunk = at / 512;
    let data = u64::from(n) - 1;
    let stripe = chunk / data;
    let parity = (stripe % u64::from(n)) as u8;
    let k = (chunk % data) as u8;
    Spot {
        disk: beside(parity, k),
        parity,
        place: 512 + 512 * stripe + at % 512,
    }
}

// The k-th of the disks other than p.
fn beside(p: u8, k: u8) -> u8
    requires { k < 8 }
    ensures { result ≡ beside p k }
{
    if k < p { k } else { k + 1 }
}

/// How many stripes a member of so many bytes has.
pub fn stripes(n: u8, size: u64) -> u64
    requires least { 3 ≤ n }
    requires most { n ≤ 8 }
    ensures { result ≡ stripes_of n size }
{
    let chunks = size / 512 + u64::from(size % 512 != 0);
    let data = u64::from(n) - 1;
    (chunks + (data - 1)) / data
}

/// How many bytes each disk has: those of its header and of its stripes.
pub fn disk_length(n: u8, size: u64) -> u64
    requires least { 3 ≤ n }
    requires most { n ≤ 8 }
    ensures { result ≡ disk_length n size }
{
    512 + 512 * stripes(n, size)
}
