// Keys at the edges of their kinds: their words, the keys of these words, and their order.
use crate::document::DocumentName;
use crate::key::Key;
use crate::search::{below, up_to};
use crate::stamp::DueStamp;
use std::process::Abort;

// The minute packs into the word, and the word into the minute.
fn packs(rt: &impl Abort, minute: i64, word: u64) {
    let stamp = DueStamp { minute, serial: 5 };
    assert_eq!(rt; stamp.word(0), word);
    assert_eq!(rt; stamp.word(1), 5);
    assert_eq!(rt; DueStamp::from_words(&[word, 5]).minute, minute);
}

#[test]
fn minutes(rt: HostRuntime) {
    packs(&rt, i64::MIN, 0);
    packs(&rt, -1, 9_223_372_036_854_775_807);
    packs(&rt, 0, 9_223_372_036_854_775_808);
    packs(&rt, i64::MAX, u64::MAX);
}

#[test]
fn minutes_ascend(rt: HostRuntime) {
    let stamps = [
        DueStamp {
            minute: i64::MIN,
            serial: 9,
        },
        DueStamp {
            minute: -1,
            serial: 8,
        },
        DueStamp {
            minute: 0,
            serial: 0,
        },
        DueStamp {
            minute: 0,
            serial: u64::MAX,
        },
        DueStamp {
            minute: i64::MAX,
            serial: 0,
        },
    ];
    for (i, stamp) in stamps.iter().enumerate() {
        assert_eq!(rt; below(&stamps, stamp), i);
        assert_eq!(rt; up_to(&stamps, stamp), i + 1);
    }
}

#[test]
fn bytes(rt: HostRuntime) {
    let least = DocumentName::from([0; 32]);
    let most = DocumentName::from([255; 32]);
    for i in 0..4 {
        assert_eq!(rt; least.word(i), 0);
        assert_eq!(rt; most.word(i), u64::MAX);
    }
    assert_eq!(rt; DocumentName::from_words(&[0, 0, 0, 0]), least);
    assert_eq!(rt; DocumentName::from_words(&[u64::MAX; 4]), most);
    assert!(rt; least < most);
    assert!(rt;
        DocumentName::from_words(&[0, 0, 0, 255]) < DocumentName::from_words(&[0, 0, 0, 256])
    );
}
