// The vendor with the number of TIDs that it has given. It is called only as its contracts allow.
ghost use Rattle.std.specs.Prelude.{◌≡◌, ◌+◌};

use crate::answers::Answer;
use std::alloc::AllocError;
use tcc_base::NodeId;
use tcc_msg::{Msg, Outgoing};
use tid_vendor::{MAX_GRANTS, Vendor};

#[derive(Drop)]
pub struct TestedVendor {
    vendor: Vendor,
    pub granted: u64,
    ghost counted: { vendor ≡ granted + 1 },
}

impl TestedVendor {
    pub fn start() -> TestedVendor {
        TestedVendor {
            vendor: Vendor::new(),
            granted: 0,
        }
    }

    pub fn deliver(&mut self, src: NodeId, msg: &Msg, out: &mut Outgoing) -> Answer {
        if *msg != Msg::TidReq || self.granted >= MAX_GRANTS {
            return Answer::Nothing;
        }
        let tid = self.vendor.grant();
        self.granted += 1;
        match out.push(src, Msg::TidGrant { tid }) {
            Ok(()) => Answer::Granted,
            Err(_) => Answer::Memory,
        }
    }
}
