// A worked row of the pool: what each call answers at known values.
use crate::same::same;
use dcr_pool::Pool;
use std::test::Fail;

#[test]
fn two_blocks_are_taken_and_one_is_given_back(rt: HostRuntime) -> Result<(), Fail> {
    let mut pool = Pool::<u64>::open(rt.alloc(), 2, 256)?;
    let first = pool.take();
    let second = pool.take();
    assert!(rt; second.is_some() && pool.take().is_none());
    let Some(mut block) = first else {
        return Err(Fail::from("the first block is missing"));
    };
    assert!(rt; block.is_empty());
    for number in 0..256 {
        block.push(number * 3);
    }
    same(&rt, &block.len(), &256, "a full block");
    assert!(rt; block.get(255) == Some(&765) && block.get(256).is_none());
    pool.give(block);
    same(&rt, &pool.spare(), &1, "after one is given back");
    assert!(rt; pool.take().is_some_and(|block| block.is_empty()));
    Ok(())
}
