// What a member can be.
use core_node::CoreNode;
use directory::Directory;
use tcc_base::{CoreId, DirId};
use tid_vendor::Vendor;

/// A core or a directory with its number, or the vendor.
#[derive(Debug, Drop)]
pub(crate) enum MemberKind {
    Core(CoreId, CoreNode),
    Directory(DirId, Directory),
    Vendor(Vendor),
}
