// The stores at the bottom, and the piles of layers over two of them.
use crate::bottom::{Bottom, Map, Spread};
use crate::layers::Layers;

// Words for 40 blocks, and more marks.
const TABLE: Bottom = Bottom {
    width: 65,
    words: 40 * 65,
    marks: 43,
    spread: Spread::Rows,
};

// Two frames to a block.
const MAP: Map = Map {
    entries: 80,
    first: 79,
    past: 0,
};

// A map for 40 blocks, more marks, and words past the last whole frame.
const PAGED: Bottom = Bottom {
    width: 65,
    words: 80 * 64 + 63,
    marks: 43,
    spread: Spread::Frames(MAP),
};

// Every store at the bottom, with its name.
pub(crate) static BOTTOMS: [(&str, Bottom); 23] = [
    ("table", TABLE),
    (
        "table, one word short of a block more",
        Bottom {
            words: 41 * 65 - 1,
            ..TABLE
        },
    ),
    (
        "table, one word short",
        Bottom {
            words: 40 * 65 - 1,
            ..TABLE
        },
    ),
    ("table, 20 marks", Bottom { marks: 20, ..TABLE }),
    ("table, no word for a block", Bottom { words: 64, ..TABLE }),
    ("table, no marks", Bottom { marks: 0, ..TABLE }),
    (
        "table, width 1",
        Bottom {
            width: 1,
            words: 40,
            ..TABLE
        },
    ),
    (
        "table, width 512",
        Bottom {
            width: 512,
            words: 40 * 512 + 511,
            ..TABLE
        },
    ),
    ("table, width 0", Bottom { width: 0, ..TABLE }),
    (
        "table, width 513",
        Bottom {
            width: 513,
            words: 40 * 513,
            ..TABLE
        },
    ),
    (
        "table, the most blocks",
        Bottom {
            width: 1,
            words: 1_048_577,
            marks: 1_048_578,
            ..TABLE
        },
    ),
    ("paged", PAGED),
    (
        "paged, width 1",
        Bottom {
            width: 1,
            spread: Spread::Frames(Map { entries: 40, ..MAP }),
            ..PAGED
        },
    ),
    (
        "paged, width 64",
        Bottom {
            width: 64,
            spread: Spread::Frames(Map { entries: 40, ..MAP }),
            ..PAGED
        },
    ),
    (
        "paged, width 512",
        Bottom {
            width: 512,
            words: 320 * 64,
            spread: Spread::Frames(Map {
                entries: 320,
                first: 319,
                ..MAP
            }),
            ..PAGED
        },
    ),
    ("paged, width 0", Bottom { width: 0, ..PAGED }),
    (
        "paged, width 513",
        Bottom {
            width: 513,
            ..PAGED
        },
    ),
    (
        "paged, a frame twice",
        Bottom {
            spread: Spread::Frames(Map {
                first: 78,
                past: 5,
                ..MAP
            }),
            ..PAGED
        },
    ),
    (
        "paged, a frame outside",
        Bottom {
            spread: Spread::Frames(Map {
                first: 78,
                past: 80,
                ..MAP
            }),
            ..PAGED
        },
    ),
    (
        "paged, a longer map with frames twice",
        Bottom {
            marks: 40,
            spread: Spread::Frames(Map { entries: 83, ..MAP }),
            ..PAGED
        },
    ),
    (
        "paged, a longer map with a frame outside",
        Bottom {
            spread: Spread::Frames(Map {
                entries: 81,
                past: u32::MAX,
                ..MAP
            }),
            ..PAGED
        },
    ),
    (
        "paged, a map too short for a block",
        Bottom {
            spread: Spread::Frames(Map {
                entries: 1,
                first: 80,
                ..MAP
            }),
            ..PAGED
        },
    ),
    (
        "paged, no marks",
        Bottom {
            marks: 0,
            spread: Spread::Frames(Map { first: 80, ..MAP }),
            ..PAGED
        },
    ),
];

// Every pile, with its name: the layers of the early calls, those of the late ones, and the store below.
pub(crate) static PILES: [(&str, Layers, Layers, Bottom); 17] = [
    (
        "quota 0 over table",
        Layers::Quota(0),
        Layers::Quota(0),
        TABLE,
    ),
    (
        "quota 3 over table",
        Layers::Quota(3),
        Layers::Quota(3),
        TABLE,
    ),
    (
        "quota 40 over table",
        Layers::Quota(40),
        Layers::Quota(40),
        TABLE,
    ),
    (
        "quota 41 over table",
        Layers::Quota(41),
        Layers::Quota(41),
        TABLE,
    ),
    (
        "quota 2^32 over table",
        Layers::Quota(4_294_967_296),
        Layers::Quota(4_294_967_296),
        TABLE,
    ),
    (
        "the largest quota over table",
        Layers::Quota(u64::MAX),
        Layers::Quota(u64::MAX),
        TABLE,
    ),
    (
        "table, late under quota 3",
        Layers::Bare,
        Layers::Quota(3),
        TABLE,
    ),
    (
        "table, late under quota 0",
        Layers::Bare,
        Layers::Quota(0),
        TABLE,
    ),
    (
        "quota 3 over table, late 30",
        Layers::Quota(3),
        Layers::Quota(30),
        TABLE,
    ),
    (
        "cache 0 over table",
        Layers::Cache(0),
        Layers::Cache(0),
        TABLE,
    ),
    (
        "cache 17 over table",
        Layers::Cache(17),
        Layers::Cache(17),
        TABLE,
    ),
    (
        "cache 1 over table",
        Layers::Cache(1),
        Layers::Cache(1),
        TABLE,
    ),
    (
        "cache 16 over table",
        Layers::Cache(16),
        Layers::Cache(16),
        TABLE,
    ),
    (
        "cache 16 over table, late cache 1",
        Layers::Cache(16),
        Layers::Cache(1),
        TABLE,
    ),
    (
        "quota 30 over cache 4 over table",
        Layers::QuotaOverCache(30, 4),
        Layers::QuotaOverCache(30, 4),
        TABLE,
    ),
    (
        "table, late under quota 3 over cache 4",
        Layers::Bare,
        Layers::QuotaOverCache(3, 4),
        TABLE,
    ),
    (
        "cache 2 over quota 30 over paged",
        Layers::CacheOverQuota(2, 30),
        Layers::CacheOverQuota(2, 30),
        PAGED,
    ),
];
