//! Blocks of words in raw memory.
use std::test::Fail;
use word_block::WordBlock;

#[test]
fn a_block_begins_with_zeros_and_keeps_what_is_written(rt: HostRuntime) -> Result<(), Fail> {
    let mut block = WordBlock::zeros(rt.alloc(), 3)?;
    assert_eq!(rt; block.as_slice(), [0, 0, 0].as_slice());
    block.as_mut_slice()[1] = 7;
    assert_eq!(rt; block.as_slice(), [0, 7, 0].as_slice());
    Ok(())
}

#[test]
fn a_block_may_be_empty_and_has_fewer_than_2_to_the_63_bytes(rt: HostRuntime) -> Result<(), Fail> {
    let block = WordBlock::zeros(rt.alloc(), 0)?;
    assert!(rt; block.as_slice().is_empty());
    assert!(rt; WordBlock::zeros(rt.alloc(), 1 << 60).is_err());
    Ok(())
}
