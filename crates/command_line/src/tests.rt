//! Lists of words, and what they mean.
use super::*;
use std::alloc::{AllocError, Global};
use std::test::Fail;

// What the words mean.
fn read(alloc: Global, words: &[&str]) -> Result<Result<Words, WordsFault>, AllocError> {
    let mut given = Vec::new(alloc);
    for word in words {
        let mut text = String::new(alloc);
        text.push_str(word)?;
        given.push(text)?;
    }
    Ok(read_words(alloc, given.as_slice()))
}

const PLAIN: Words = Words {
    trees: 1,
    workers: 0,
    show: ShowWhat::Fields,
    demo: None,
};

#[test]
fn accepted_lists(rt: HostRuntime) -> Result<(), Fail> {
    let alloc = rt.alloc();
    assert_eq!(rt; read(alloc, [].as_slice())?, Ok(PLAIN));
    for words in [
        ["--trees", "64"].as_slice(),
        ["--trees=64"].as_slice(),
        ["--trees=064"].as_slice(),
        ["--trees", "0000000000000000064"].as_slice(),
    ] {
        assert_eq!(rt; read(alloc, words)?, Ok(Words { trees: 64, ..PLAIN }));
    }
    for words in [
        ["--workers", "16", "--show=all", "--trees=2"].as_slice(),
        ["--trees", "2", "--workers=16", "--show", "all"].as_slice(),
        ["--show", "all", "--trees=2", "--workers", "16"].as_slice(),
    ] {
        let wanted = Words {
            trees: 2,
            workers: 16,
            show: ShowWhat::All,
            demo: None,
        };
        assert_eq!(rt; read(alloc, words)?, Ok(wanted));
    }
    assert_eq!(rt;
        read(alloc, ["--show=traffic"].as_slice())?,
        Ok(Words {
            show: ShowWhat::Traffic,
            ..PLAIN
        })
    );
    assert_eq!(rt; read(alloc, ["--show", "fields"].as_slice())?, Ok(PLAIN));
    assert_eq!(rt;
        read(alloc, ["--demo", "0"].as_slice())?,
        Ok(Words {
            demo: Some(0),
            ..PLAIN
        })
    );
    assert_eq!(rt;
        read(alloc, ["--demo=9999999999999999999"].as_slice())?,
        Ok(Words {
            demo: Some(9_999_999_999_999_999_999),
            ..PLAIN
        })
    );
    Ok(())
}

#[test]
fn refused_lists(rt: HostRuntime) -> Result<(), Fail> {
    for words in [
        ["--trees", "0"].as_slice(),
        ["--trees", "65"].as_slice(),
        ["--trees", "2", "--trees", "2"].as_slice(),
        ["--trees=2", "--trees=2"].as_slice(),
        ["--trees"].as_slice(),
        ["--"].as_slice(),
        ["--trees", "2", "--"].as_slice(),
        ["--trees", "--", "2"].as_slice(),
        ["--help"].as_slice(),
        ["-h"].as_slice(),
        ["--version"].as_slice(),
        ["--show", "some"].as_slice(),
        ["--show=Fields"].as_slice(),
        ["--demo", "1", "--show", "all"].as_slice(),
        ["--show=fields", "--demo=1"].as_slice(),
        ["--trees=-1"].as_slice(),
        ["--trees", "-1"].as_slice(),
        ["--trees", "-"].as_slice(),
        ["--trees="].as_slice(),
        ["--trees", ""].as_slice(),
        ["--show="].as_slice(),
        ["--trees=+2"].as_slice(),
        ["--trees= 2"].as_slice(),
        ["--trees=2x"].as_slice(),
        ["--tree", "2"].as_slice(),
        ["--Trees", "2"].as_slice(),
        ["-trees", "2"].as_slice(),
        ["--=2"].as_slice(),
        ["trees=2"].as_slice(),
        ["2"].as_slice(),
        [""].as_slice(),
        ["-"].as_slice(),
        ["--workers", "17"].as_slice(),
        ["--demo", "10000000000000000000"].as_slice(),
        ["--demo", "00000000000000000001"].as_slice(),
        ["--trees", "\u{662}"].as_slice(),
        ["--trees", "2", "3"].as_slice(),
        ["--trees", "--workers", "3"].as_slice(),
    ] {
        assert_eq!(rt; read(rt.alloc(), words)?, Err(WordsFault::Usage));
    }
    Ok(())
}
