#![tactic(auto)]

// Page and count go side by side, as in the makers that are tried.
// Tests of the stores at their limits: each page size, the smallest and the largest size, lengths one off, the last slot and the one after it.
#[cfg(test)]
mod wear;

#[cfg(test)]
mod pools {
    use crate::wear::{Buffers, wears_well};
    use frame_pool::FramePool;
    use page_store::Refusal;
    use std::process::Abort;
    use std::test::Fail;

    fn pool_over<'a>(
        page: usize,
        count: usize,
        bytes: &'a mut [u8],
        marks: &'a mut [u8],
    ) -> Result<FramePool<'a>, Fail> {
        FramePool::check(page, count, bytes, marks).map_err(|_| Fail::new("the check refuses"))?;
        Ok(FramePool::new(page, count, bytes, marks))
    }

    fn pool_serves(rt: &(impl Abort + AllocGlobal), page: usize, count: usize) -> Result<(), Fail> {
        let heap = rt.alloc();
        let mut bytes = vec![in heap; 7u8; page.saturating_mul(count)]?;
        let mut marks = vec![in heap; 9u8; count]?;
        let mut buffers = Buffers::new(heap, page)?;
        let mut pool = pool_over(page, count, &mut bytes, &mut marks)?;
        wears_well(rt, &mut pool, page, count, 3, &mut buffers)
    }

    #[test]
    fn every_page_size_at_both_sizes(rt: HostRuntime) -> Result<(), Fail> {
        for page in [64usize, 256, 1024, 4096] {
            pool_serves(&rt, page, 1)?;
            pool_serves(&rt, page, 3)?;
        }
        pool_serves(&rt, 64, 2048)?;
        pool_serves(&rt, 4096, 2048)
    }

    // What the check says of `count` slots of `page` bytes over this much memory; a refusal by its number, so that the numbers are tried too.
    fn checked(
        rt: &HostRuntime,
        page: usize,
        count: usize,
        bytes: usize,
        marks: usize,
    ) -> Result<Result<(), u8>, Fail> {
        let heap = rt.alloc();
        let bytes = vec![in heap; 0u8; bytes]?;
        let marks = vec![in heap; 0u8; marks]?;
        Ok(FramePool::check(page, count, &bytes, &marks).map_err(Refusal::number))
    }

    #[test]
    fn one_off_is_refused(rt: HostRuntime) -> Result<(), Fail> {
        assert_eq!(rt; checked(&rt, 64, 2, 128, 2)?, Ok(()));
        assert_eq!(rt; checked(&rt, 64, 2, 127, 2)?, Err(3), "a byte too few");
        assert_eq!(rt; checked(&rt, 64, 2, 129, 2)?, Err(3), "a byte too many");
        assert_eq!(rt; checked(&rt, 64, 2, 128, 1)?, Err(3), "a mark too few");
        assert_eq!(rt; checked(&rt, 64, 2, 128, 3)?, Err(3), "a mark too many");
        assert_eq!(rt; checked(&rt, 64, 0, 0, 0)?, Err(2), "no slot");
        assert_eq!(rt;
            checked(&rt, 64, 2049, 131_136, 2049)?,
            Err(2),
            "a slot too many"
        );
        assert_eq!(rt; checked(&rt, 64, 0, 1, 1)?, Err(2), "2 before 3");
        assert_eq!(rt; checked(&rt, 63, 0, 1, 1)?, Err(1), "1 before 2");
        Ok(())
    }

    #[test]
    fn only_four_page_sizes(rt: HostRuntime) -> Result<(), Fail> {
        for page in [
            0usize, 1, 63, 65, 128, 255, 257, 512, 1023, 1025, 2048, 4095, 4097, 8192,
        ] {
            assert_eq!(rt; checked(&rt, page, 1, page, 1)?, Err(1));
        }
        Ok(())
    }
}

#[cfg(test)]
mod logs {
    use crate::wear::{Buffers, wears_well};
    use page_store::{Lent, PageStore, Refusal};
    use std::process::Abort;
    use std::test::Fail;
    use swap_log::SwapLog;
    use zero_layer::ZeroLayer;

    // Two layers over a store, worn like the store itself.
    fn layers_over<S: PageStore>(
        rt: &impl Abort,
        store: &mut S,
        page: usize,
        count: usize,
        buffers: &mut Buffers,
    ) -> Result<(), Fail> {
        let mut upper = ZeroLayer::new(ZeroLayer::new(Lent { store }));
        wears_well(rt, &mut upper, page, count, 3, buffers)
    }

    fn log_over<'a>(
        page: usize,
        count: usize,
        positions: usize,
        numbers: &'a mut [u16],
        bytes: &'a mut [u8],
    ) -> Result<SwapLog<'a>, Fail> {
        SwapLog::check(page, count, positions, numbers, bytes).map_err(|_| Fail::new(
            "the check refuses",
        ))?;
        Ok(SwapLog::new(page, count, positions, numbers, bytes))
    }

    fn log_serves(
        rt: &(impl Abort + AllocGlobal),
        page: usize,
        count: usize,
        positions: usize,
    ) -> Result<(), Fail> {
        let heap = rt.alloc();
        let mut numbers = vec![in heap; 3u16; positions]?;
        let mut bytes = vec![in heap; 7u8; page.saturating_mul(positions)]?;
        let mut buffers = Buffers::new(heap, page)?;
        let mut log = log_over(page, count, positions, &mut numbers, &mut bytes)?;
        wears_well(rt, &mut log, page, count, 5, &mut buffers)
    }

    #[test]
    fn compacts_again_and_again(rt: HostRuntime) -> Result<(), Fail> {
        for page in [64usize, 256, 1024, 4096] {
            log_serves(&rt, page, 1, 1)?;
            log_serves(&rt, page, 1, 2)?;
            log_serves(&rt, page, 3, 3)?;
            log_serves(&rt, page, 3, 4)?;
            log_serves(&rt, page, 3, 6)?;
        }
        log_serves(&rt, 64, 2048, 2048)?;
        log_serves(&rt, 64, 2048, 4096)
    }

    // As the pool's, but of another maker with other memory: what they share is the two lines around it.
    fn checked(
        rt: &HostRuntime,
        page: usize,
        count: usize,
        positions: usize,
        numbers: usize,
        bytes: usize,
    ) -> Result<Result<(), u8>, Fail> {
        let heap = rt.alloc();
        let numbers = vec![in heap; 0u16; numbers]?;
        let bytes = vec![in heap; 0u8; bytes]?;
        Ok(SwapLog::check(page, count, positions, &numbers, &bytes).map_err(Refusal::number))
    }

    #[test]
    fn one_off_is_refused(rt: HostRuntime) -> Result<(), Fail> {
        assert_eq!(rt; checked(&rt, 64, 2, 3, 3, 192)?, Ok(()));
        assert_eq!(rt; checked(&rt, 64, 2, 3, 2, 192)?, Err(3), "a number too few");
        assert_eq!(rt; checked(&rt, 64, 2, 3, 3, 193)?, Err(3), "a byte too many");
        assert_eq!(rt;
            checked(&rt, 64, 2, 1, 1, 64)?,
            Err(2),
            "fewer positions than slots"
        );
        assert_eq!(rt;
            checked(&rt, 64, 2, 5, 5, 320)?,
            Err(2),
            "more than twice as many"
        );
        assert_eq!(rt; checked(&rt, 64, 0, 0, 0, 0)?, Err(2), "no slot");
        assert_eq!(rt;
            checked(&rt, 64, 2049, 2049, 2049, 131_136)?,
            Err(2),
            "a slot too many"
        );
        assert_eq!(rt; checked(&rt, 65, 0, 0, 1, 1)?, Err(1), "1 before 2 and 3");
        Ok(())
    }

    fn pile_serves(rt: &(impl Abort + AllocGlobal), page: usize, count: usize) -> Result<(), Fail> {
        let heap = rt.alloc();
        let mut numbers = vec![in heap; 3u16; count]?;
        let mut bytes = vec![in heap; 7u8; page.saturating_mul(count)]?;
        let mut buffers = Buffers::new(heap, page)?;
        let mut log = log_over(page, count, count, &mut numbers, &mut bytes)?;
        layers_over(rt, &mut log, page, count, &mut buffers)
    }

    #[test]
    fn layers_serve_over_a_log(rt: HostRuntime) -> Result<(), Fail> {
        for page in [64usize, 256, 1024, 4096] {
            pile_serves(&rt, page, 1)?;
            pile_serves(&rt, page, 3)?;
        }
        pile_serves(&rt, 64, 2048)
    }
}
