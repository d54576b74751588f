use hex::encode;
use sha2::{Digest, Sha256};
use std::test::Fail;
use ufs_samples::{Which, sample_image};

/// The four small volumes are those of `tests/rows/volumes.py`, whose bytes `images.py` makes by itself, from the formats: the
/// SHA-256 of each was computed by Python's `hashlib`.
#[test]
fn samples_by_their_digests(rt: HostRuntime) -> Result<(), Fail> {
    for (which, wanted) in [
        (
            Which::E,
            "345be49e1aafc3695f673ed23d03a40a64503b620e5db145f512c5c5f62447df",
        ),
        (
            Which::F,
            "2354c7a61fa38adfc352471c5b6e4f70b88fe517248b074c5866cc73c55d37e8",
        ),
        (
            Which::X,
            "99e12f70b87fd373bbb3c30e48f19ca5e48f4029c40c7a852af4d2f8d980c8e6",
        ),
        (
            Which::Fb,
            "863523b9d6cfbcc0871545ca244af49d64e6d0277317d90c9bbc01f378f4b019",
        ),
    ] {
        let image = sample_image(rt.alloc(), which)?;
        let digest = Sha256::digest(&image);
        let text = encode(rt.alloc(), &digest)?;
        assert_eq!(rt; text.as_str(), wanted, "{which:?}");
    }
    Ok(())
}
