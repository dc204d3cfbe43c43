//! What a model answers from the words of two names, and from the last of 512.
ghost use Rattle.std.specs.Prelude.{◌≡◌, ◌≤◌, length, IfOk, vec_len};
ghost use Rattle.hypothesis_index.specs.Places.{width_of};

use hypothesis_index::width;
use model_meet::{Counts, Model};
use std::alloc::{AllocError, Global};
use std::test::Fail;

/// The words of so many names, where a word lacks the bits of a mask.
fn words_without(alloc: Global, names: u32, word: usize, mask: u64) -> Result<Vec<u64>, AllocError>
    requires { names ≤ 512 }
    ensures { IfOk result (λ words. length words.items ≡ width_of names) }
{
    let mut words = Vec::from_elem(alloc, u64::MAX, width(names) as usize)?;
    if word < words.len() {
        words[word] = !mask;
    }
    Ok(words)
}

/// The numbers of lines of two names and two tasks.
fn counts_without(alloc: Global, word: usize, mask: u64) -> Result<(u32, u32, u32), AllocError> {
    let words = words_without(alloc, 2, word, mask)?;
    let counts = Model::new(&words, 2).counts(2);
    Ok((counts.hb, counts.mx, counts.pipe))
}

#[test]
fn lines_of_two_names_and_two_tasks(rt: HostRuntime) -> Result<(), Fail> {
    let rows = [
        (126, 0, (0, 0, 0)),
        (126, 8, (2, 0, 0)),
        (126, 10, (1, 0, 0)),
        (126, 9, (1, 0, 0)),
        (126, 11, (0, 1, 0)),
        (126, 15, (0, 0, 0)),
        (126, 3, (0, 0, 0)),
        (0, 4, (0, 0, 2)),
        (0, 6, (0, 0, 1)),
        (0, 7, (0, 0, 0)),
        (0, 2, (0, 0, 0)),
    ];
    for (word, mask, counts) in rows {
        assert_eq!(rt; counts_without(rt.alloc(), word, mask)?, counts);
    }
    Ok(())
}

#[test]
fn a_name_before_another(rt: HostRuntime) -> Result<(), Fail> {
    let words = words_without(rt.alloc(), 2, 126, 10)?;
    let model = Model::new(&words, 2);
    assert!(rt; model.happens_before(0, 1));
    assert!(rt; !model.happens_before(1, 0));
    assert!(rt; model.exclusive(1, 0));
    assert!(rt; model.together(0, 1));
    assert!(rt; model.lists_order(0, 1));
    assert!(rt; !model.lists_order(1, 0));
    assert!(rt; !model.lists_exclusion(0, 1));
    assert!(rt; model.pipe(1, 0));
    assert!(rt; !model.shared(1, 0));
    assert!(rt; !model.lists_pipe(1, 0));
    Ok(())
}

#[test]
fn an_exclusion_with_no_order(rt: HostRuntime) -> Result<(), Fail> {
    let words = words_without(rt.alloc(), 2, 126, 11)?;
    let model = Model::new(&words, 2);
    assert!(rt; model.lists_exclusion(0, 1));
    assert!(rt; model.lists_exclusion(1, 0));
    assert!(rt; !model.lists_order(0, 1));
    assert!(rt; !model.lists_order(1, 0));
    Ok(())
}

#[test]
fn a_pipe_between_the_last_tasks(rt: HostRuntime) -> Result<(), Fail> {
    let words = words_without(rt.alloc(), 0, 125, 5 << 60)?;
    let model = Model::new(&words, 0);
    assert!(rt; model.shared(63, 62));
    assert!(rt; model.pipe(63, 62));
    assert!(rt; !model.pipe(62, 63));
    assert!(rt; model.lists_pipe(63, 62));
    assert!(rt; !model.lists_pipe(62, 63));
    let pipe = Counts {
        hb: 0,
        mx: 0,
        pipe: 1,
    };
    assert!(rt; model.counts(64) == pipe);
    assert_eq!(rt; model.counts(63).pipe, 0);
    Ok(())
}

#[test]
fn the_last_two_of_512_names(rt: HostRuntime) -> Result<(), Fail> {
    let words = words_without(rt.alloc(), 512, 8301, 10 << 60)?;
    let model = Model::new(&words, 512);
    assert!(rt; model.lists_order(510, 511));
    assert!(rt; !model.lists_order(511, 510));
    assert_eq!(rt; model.counts(64).hb, 1);
    Ok(())
}
