use crate::name_peaks;
use cds_base::Window;
use std::test::Fail;

/// The window of a component that expects its peak at `time_ms` and takes one `width_ms` away.
fn window(time_ms: u32, width_ms: u32) -> Window {
    Window {
        time_us: u64::from(time_ms) * 1000,
        width_us: u64::from(width_ms) * 1000,
    }
}

#[test]
fn components_name_the_nearest_peaks_that_no_nearer_pair_takes(
    rt: HostRuntime,
) -> Result<(), Fail> {
    let one_peak = [5_000_000];
    let two_peaks = [5_000_000, 9_000_000];
    let a_and_c = [window(4500, 1000), window(5500, 1000)];
    let k = [window(7000, 2000)];
    let k_and_l = [window(7000, 2000), window(6500, 2500)];
    let ties = [window(7000, 2000), window(7000, 2000), window(7000, 2000)];
    let far = [window(20_000, 1), window(5000, 0)];
    let rows: [(&[Window], &[u64], &[Option<u32>]); 7] = [
        (&a_and_c, &one_peak, &[Some(1), None]),
        (&k, &two_peaks, &[Some(1)]),
        (&k_and_l, &two_peaks, &[Some(2), Some(1)]),
        (&ties, &two_peaks, &[Some(1), Some(2), None]),
        (&far, &two_peaks, &[None, Some(1)]),
        (&far, &[], &[None, None]),
        (&[], &two_peaks, &[]),
    ];
    for (windows, times, wanted) in rows {
        assert!(rt; windows.len() < 10 && times.len() < 10);
        let names = name_peaks(rt.alloc(), windows, times)?;
        assert_eq!(rt; names.len() as usize, wanted.len());
        for (place, peak) in wanted.iter().enumerate() {
            assert!(rt; place < 10);
            assert_eq!(rt;
                names.get(place as u32),
                Some(peak.map(|number| number.saturating_sub(1)))
            );
            assert_eq!(rt; names.of(place as u32 + 1), *peak);
        }
        assert_eq!(rt; names.of(0), None);
        assert_eq!(rt; names.of(names.len().saturating_add(1)), None);
        assert_eq!(rt; names.get(names.len()), None);
        assert_eq!(rt; names.of(4_294_967_295), None);
    }
    Ok(())
}
