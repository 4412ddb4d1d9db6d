// The shipped kinds of key.
ghost use Rattle.std.specs.Prelude.{◌≡◌, ℕ, ℤ, ◌%◌, ◌^◌, slice_index, refl};
ghost use Rattle.std.proofs.Common.{ap, ◌∙◌, arith, rules};
ghost use Rattle.keys.specs.Checkpoints.{order as checkpoint_order, packed as checkpoint_packed, unpacked as checkpoint_unpacked};
ghost use Rattle.keys.specs.Documents.{order as document_order, packed as document_packed, unpacked as document_unpacked};
ghost use Rattle.keys.specs.Orders.{InOrder};
ghost use Rattle.keys.specs.Stamps.{order as stamp_order, packed as stamp_packed, unpacked as stamp_unpacked, biased, unbiased};
ghost use Rattle.keys.specs.Lawful.{checkpoints_ordered};
ghost use Rattle.keys.specs.Checkpoints;
ghost use Rattle.keys.specs.Alike.{checkpoints, stamps, documents};
ghost use Rattle.keys.specs.CheckpointKeyLemmas.{forth_law};
ghost use Rattle.keys.specs.Stamps;
ghost use Rattle.keys.specs.DueStampKeyLemmas.{stamps_ordered, word_fits, there_back};
ghost use Rattle.keys.specs.DueStampKeyLemmas;
ghost use Rattle.keys.specs.DocumentNameKeyLemmas.{documents_ordered, back_law};
ghost use Rattle.keys.specs.Documents;
ghost use Rattle.keys.specs.Bytes;
ghost use Rattle.keys.specs.DocumentNameKeyLemmas;

use crate::checkpoint::Checkpoint;
use crate::document::DocumentName;
use crate::key::Key;
use crate::stamp::DueStamp;
use std::cmp::Ordering;

// The word at a place, 0 past the end.
fn word_at(words: &[u64], i: usize) -> u64
    ensures { result ≡ slice_index words.now i }
{
    words.get(i).copied().unwrap_or(0)
}

impl Key for Checkpoint {
    ghost width = { 1 };

    ghost order = { checkpoint_order };

    ghost packed = { checkpoint_packed };

    ghost unpacked = { checkpoint_unpacked };

    ghost ordered = { checkpoints_ordered };

    ghost packing = { record {
      some = Prim.search rules;
      few = Prim.search rules;
      long = Prim.search rules;
      words = Prim.search rules;
      back = λ x. let f = x.fits in checkpoints (Checkpoints.unpacked (Checkpoints.packed x)) x (omega arith) (omega arith);
      forth = forth_law;
    } };

    fn words() -> u32 {
        1
    }

    fn compare(&self, other: &Checkpoint) -> Ordering {
        self.cmp(other)
    }

    fn word(&self, i: u32) -> u64 {
        if i == 0 {
            u64::from(self.case) * 4_294_967_296 + u64::from(self.step)
        } else {
            0
        }
    }

    fn from_words(words: &[u64]) -> Checkpoint {
        let word = word_at(words, 0);
        Checkpoint {
            case: (word / 4_294_967_296) as u32,
            step: (word % 4_294_967_296) as u32,
        }
    }
}

// minute + 2^63
fn from_minute(minute: i64) -> u64
    ensures { result ≡ biased minute }
{
    (i128::from(minute) + 9_223_372_036_854_775_808) as u64
}

// word - 2^63
fn to_minute(word: u64) -> i64
    ensures { result ≡ unbiased word }
{
    (i128::from(word) - 9_223_372_036_854_775_808) as i64
}

impl Key for DueStamp {
    ghost width = { 2 };

    ghost order = { stamp_order };

    ghost packed = { stamp_packed };

    ghost unpacked = { stamp_unpacked };

    ghost ordered = { stamps_ordered };

    ghost packing = { record {
      some = Prim.search rules;
      few = Prim.search rules;
      long = λ x. refl;
      words = λ x. (word_fits x.minute x.fits.0, (x.fits.1, tt));
      back = λ x.
          let p : biased x.minute % 2 ^ 64 ≡ biased x.minute = omega (arith, word_fits x.minute x.fits.0) in
          stamps (Stamps.unpacked (Stamps.packed x)) x (ap unbiased p ∙ there_back x.minute x.fits.0) (omega (arith, x.fits.1));
      forth = DueStampKeyLemmas.forth_law;
    } };

    fn words() -> u32 {
        2
    }

    fn compare(&self, other: &DueStamp) -> Ordering {
        self.cmp(other)
    }

    fn word(&self, i: u32) -> u64 {
        if i == 0 {
            from_minute(self.minute)
        } else if i == 1 {
            self.serial
        } else {
            0
        }
    }

    fn from_words(words: &[u64]) -> DueStamp {
        let first = word_at(words, 0);
        let second = word_at(words, 1);
        DueStamp {
            minute: to_minute(first),
            serial: second,
        }
    }
}

impl Key for DocumentName {
    ghost width = { 4 };

    ghost order = { document_order };

    ghost packed = { document_packed };

    ghost unpacked = { document_unpacked };

    ghost ordered = { documents_ordered };

    ghost packing = { record {
      some = Prim.search rules;
      few = Prim.search rules;
      long = λ x. refl;
      words = λ x. (Bytes.word_fits x.bytes x.fits 0, (Bytes.word_fits x.bytes x.fits 8, (Bytes.word_fits x.bytes x.fits 16, (Bytes.word_fits x.bytes x.fits 24, tt))));
      back = λ x. documents (Documents.unpacked (Documents.packed x)) x (back_law x.bytes x.long x.fits);
      forth = DocumentNameKeyLemmas.forth_law;
    } };

    fn words() -> u32 {
        4
    }

    fn compare(&self, other: &DocumentName) -> Ordering {
        self.cmp(other)
    }

    fn word(&self, i: u32) -> u64 {
        let (words, _) = self.bytes.as_chunks::<8>();
        match words.get(i as usize) {
            Some(word) => u64::from_be_bytes(*word),
            None => 0,
        }
    }

    fn from_words(words: &[u64]) -> DocumentName {
        let parts = [
            word_at(words, 0).to_be_bytes(),
            word_at(words, 1).to_be_bytes(),
            word_at(words, 2).to_be_bytes(),
            word_at(words, 3).to_be_bytes(),
        ];
        let mut bytes = [0; 32];
        bytes.copy_from_slice(parts.as_flattened());
        DocumentName::from(bytes)
    }
}

// The shipped kinds are ordered as their definitions say: checkpoints by case, then step; stamps by minute, then serial;
// documents by their bytes, the first that differs deciding. Packed words compared as numbers, the first first, stand in the order of the keys.
pub fn words_in_order()
    ensures checkpoint_order { ⟦<Checkpoint as Ord>⟧.cmp ≡ checkpoint_order }
    ensures stamp_order { ⟦<DueStamp as Ord>⟧.cmp ≡ stamp_order }
    ensures document_order { ⟦<DocumentName as Ord>⟧.cmp ≡ document_order }
    ensures checkpoints { InOrder checkpoint_order checkpoint_packed }
    ensures stamps { InOrder stamp_order stamp_packed }
    ensures documents { InOrder document_order document_packed }
{}
