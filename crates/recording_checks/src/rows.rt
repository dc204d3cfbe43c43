//! Rows, sheets, and the entries of a row.
ghost use Rattle.std.specs.Prelude.{◌≡◌, ◌+◌, ◌<◌, ◌≤◌, IfOk, IsTrue, OnOk, [], ◌∷◌};
ghost use Rattle.word_rows.specs.Rows.{below};

use std::alloc::{AllocError, Global};
use std::test::Fail;
use word_rows::laws::below_wider;
use word_rows::{Entry, Row, RowMaker, Sheet};

const FULL: u64 = u64::MAX;

/// Makes a list of one entry.
fn single(alloc: Global, word: u32, mask: u64) -> Result<Vec<Entry>, AllocError>
    ensures { IfOk result (λ r. r.items ≡ record { word = word; mask = mask } ∷ []) }
{
    let mut entries = Vec::with_capacity(alloc, 1)?;
    entries.push_reserved(Entry { word, mask });
    Ok(entries)
}

#[test]
fn entries_have_the_form_of_a_row(rt: HostRuntime) {
    let cases: [(&[(u32, u64)], bool); 7] = [
        (&[], false),
        (&[(0, 0)], true),
        (&[(1, 0)], false),
        (&[(5, 4)], true),
        (&[(0, 1), (3, 8)], true),
        (&[(0, 1), (0, 2)], false),
        (&[(3, 1), (1, 2)], false),
    ];
    for (pairs, fits) in cases {
        let mut entries = Vec::new(rt.alloc());
        for &(word, mask) in pairs {
            entries.push(Entry { word, mask }).expect(&rt, "memory");
        }
        assert_eq!(rt; Row::fits(entries.as_slice()), fits);
        if Row::fits(entries.as_slice()) {
            assert_eq!(rt; Row::of(entries).entries().len(), pairs.len());
        }
    }
}

#[test]
fn a_full_sheet_has_all_bits(rt: HostRuntime) -> Result<(), Fail> {
    let sheet = Sheet::full(rt.alloc(), 2)?;
    assert_eq!(rt; sheet.words(), [FULL, FULL].as_slice());
    Ok(())
}

#[test]
fn a_sheet_loses_the_bits_of_rows_and_sheets(rt: HostRuntime) -> Result<(), Fail> {
    let mut sheet = Sheet::full(rt.alloc(), 2)?;
    let row = Row::of(single(rt.alloc(), 0, 10)?);
    assert_eq!(rt; row.entries().len(), 1);
    sheet.meet_row(&row);
    assert_eq!(rt; sheet.words(), [0xffff_ffff_ffff_fff5, FULL].as_slice());
    let other = Sheet::of(Vec::from_array(rt.alloc(), [FULL, 0x00ff])?);
    assert_eq!(rt; other.words().len(), sheet.words().len());
    sheet.meet_sheet(&other);
    assert_eq!(rt; sheet.words(), [0xffff_ffff_ffff_fff5, 0x00ff].as_slice());
    assert!(rt; sheet.words().len() == 2);
    assert_eq!(rt;
        (sheet.bit(0, 1), sheet.bit(0, 2), sheet.bit(1, 63)),
        (false, true, false)
    );
    Ok(())
}

/// Clears a bit of this word, which is no less than the last one.
fn clear_from(maker: &mut RowMaker, last: u32, word: u32, bit: u32) -> Result<(), AllocError>
    requires no_later { IsTrue (below (last + 1) maker.old) }
    requires word { last ≤ word }
    requires bit { bit < 64 }
    ensures { OnOk result (IsTrue (below (word + 1) maker.new)) }
{
    below_wider();
    maker.clear(word, bit)
}

#[test]
fn a_row_is_made_bit_by_bit(rt: HostRuntime) -> Result<(), Fail> {
    let none = RowMaker::new(rt.alloc()).finish()?;
    assert_eq!(rt; none.entries(), [Entry { word: 0, mask: 0 }].as_slice());
    let mut maker = RowMaker::new(rt.alloc());
    clear_from(&mut maker, 0, 0, 1)?;
    clear_from(&mut maker, 0, 0, 3)?;
    clear_from(&mut maker, 0, 0, 1)?;
    clear_from(&mut maker, 0, 126, 63)?;
    let row = maker.finish()?;
    let entries = [
        Entry { word: 0, mask: 10 },
        Entry {
            word: 126,
            mask: 0x8000_0000_0000_0000,
        },
    ];
    assert_eq!(rt; row.entries(), entries.as_slice());
    let copy = row.copy(rt.alloc())?;
    assert_eq!(rt; (copy == row, copy == none), (true, false));
    Ok(())
}

/// Clears the bits of a mask of this word, which is no less than the last one.
fn mask_from(maker: &mut RowMaker, last: u32, word: u32, mask: u64) -> Result<(), AllocError>
    requires no_later { IsTrue (below (last + 1) maker.old) }
    requires word { last ≤ word }
    ensures { OnOk result (IsTrue (below (word + 1) maker.new)) }
{
    below_wider();
    maker.clear_mask(word, mask)
}

#[test]
fn a_row_is_made_mask_by_mask(rt: HostRuntime) -> Result<(), Fail> {
    let earlier = Vec::from_array(rt.alloc(), [Entry { word: 3, mask: 1 }])?;
    let mut maker = RowMaker::over(earlier, 2)?;
    mask_from(&mut maker, 0, 0, 2)?;
    mask_from(&mut maker, 0, 0, 8)?;
    mask_from(&mut maker, 0, 5, 0)?;
    mask_from(&mut maker, 5, 7, 0x8000_0000_0000_0001)?;
    let row = maker.finish()?;
    let entries = [
        Entry { word: 0, mask: 10 },
        Entry {
            word: 7,
            mask: 0x8000_0000_0000_0001,
        },
    ];
    assert_eq!(rt; row.into_entries().as_slice(), entries.as_slice());
    Ok(())
}

#[test]
fn a_sheet_is_filled_and_widened(rt: HostRuntime) -> Result<(), Fail> {
    let mut sheet = Sheet::of(Vec::from_array(rt.alloc(), [10, 0])?);
    sheet.widen(1)?;
    assert_eq!(rt; sheet.words(), [10, 0, FULL].as_slice());
    sheet.fill();
    assert_eq!(rt;
        sheet.into_words().as_slice(),
        [FULL, FULL, FULL].as_slice()
    );
    Ok(())
}
