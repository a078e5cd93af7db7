// A vendor's first TIDs.
use tcc_base::Tid;
use tid_vendor::Vendor;

#[test]
fn gives_1_2_3(rt: HostRuntime) {
    let mut vendor = Vendor::default();
    assert_eq!(rt; vendor.grant(), Tid(1));
    assert_eq!(rt; vendor.grant(), Tid(2));
    assert_eq!(rt; vendor.grant(), Tid(3));
}

#[test]
fn goes_on_from_where_it_was(rt: HostRuntime) {
    let mut vendor = Vendor::new();
    let _ = vendor.grant();
    let mut restored = Vendor::restored(vendor.next());
    assert_eq!(rt; restored.grant(), Tid(2));
    assert_eq!(rt; vendor.grant(), Tid(2));
    assert_eq!(rt; restored.next(), vendor.next());
}
