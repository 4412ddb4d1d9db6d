ghost use Rattle.std.specs.Prelude.{◌≡◌, ℕ, ◌<◌, length, slice_index};

// A document's name: 32 bytes.
#[derive(Clone, Copy, PartialEq, Eq, PartialOrd, Ord, Debug)]
pub struct DocumentName {
    pub bytes: [u8; 32],
    ghost long: { length bytes ≡ 32 },
    ghost fits: { (k : ℕ) → slice_index bytes k < 256 },
}

impl From<[u8; 32]> for DocumentName {
    ghost from_gives = { λ bytes r. r.bytes ≡ bytes };

    fn from(bytes: [u8; 32]) -> DocumentName {
        DocumentName { bytes }
    }
}
