use crate::threads::count_in_four_threads;
use std::test::Fail;

#[test]
fn four_threads_count_to_4000(rt: HostRuntime) -> Result<(), Fail> {
    let mut count = count_in_four_threads(&rt, rt.alloc(), 1000)?;
    assert_eq!(rt; count.value, 4000);
    assert_eq!(rt; count.answers.len(), 4000);
    count.answers.sort_unstable();
    for (place, answer) in count.answers.iter().enumerate() {
        assert_eq!(rt; *answer, place as u64);
    }
    Ok(())
}
