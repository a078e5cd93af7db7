// Settings at each of their limits, and a list's end.
use tcc_base::{Config, Limit, List};

#[test]
fn settings_name_the_first_limit_that_they_break(rt: HostRuntime) {
    for (cores, dirs, sets, ways, base, ram, broken) in [
        (1, 1, 16, 2, 0x8000_0000, 65_536, None),
        (64, 64, 16, 2, 0x8000_0000, 65_536, None),
        (0, 0, 16, 2, 0, 65_536, Some(Limit::Cores)),
        (65, 1, 16, 2, 0, 65_536, Some(Limit::Cores)),
        (1, 65, 16, 2, 0, 65_536, Some(Limit::Dirs)),
        (1, 0, 16, 2, 0, 65_536, Some(Limit::Dirs)),
        (1, 1, 3, 2, 0, 65_536, Some(Limit::Sets)),
        (1, 1, 16, 17, 0, 65_536, Some(Limit::Ways)),
        (1, 1, 16, 2, 0, 48, Some(Limit::Ram)),
        (1, 1, 16, 2, 16, 65_536, Some(Limit::Base)),
        (1, 1, 16, 2, 0xffff_ffe0, 64, Some(Limit::Base)),
    ] {
        let settings = Config::new(cores, dirs, sets, ways, base, ram);
        assert_eq!(rt; settings.err(), broken, "at base {base} and {ram} bytes");
    }
}

#[test]
fn a_list_gives_back_what_was_pushed(rt: HostRuntime) {
    let mut list = List::new(rt.alloc());
    assert_eq!(rt; list.push(7), Ok(()));
    assert_eq!(rt; list.pop(), Some(7));
    assert_eq!(rt; list.pop(), None);
}
