use lane_model::Desk;
use rp_base::{BindFault, Endpoint, Message, Verdict};

/// A desk without endpoints, which drops each message and answers its length in place of an address.
#[derive(Clone, Copy)]
pub struct TestDesk;

impl Desk for TestDesk {
    ghost use Rattle.library_tests.specs.TestDesks.{test_desk, test_laws};

    ghost meaning = { test_desk };

    ghost laws = { test_laws };

    fn deliver(&mut self, _number: u64, message: &Message) -> Verdict {
        Verdict::Dropped(message.bytes().len() as u32)
    }

    fn bind(&mut self, _address: u32, _since: u64) -> Result<Endpoint, BindFault> {
        Err(BindFault::EndpointsFull)
    }

    fn unbind(&mut self, address: u32) -> Result<Endpoint, BindFault> {
        Err(BindFault::NotBound(address))
    }

    fn reset(&mut self) {}
}
