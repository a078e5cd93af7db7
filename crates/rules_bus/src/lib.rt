// The machine with one bus, as definitions over the cores of the directory machine, with schedules worked by hand. Each law is the contract
// of an empty function; nothing here depends on code.
#![tactic(auto)]

ghost use Rattle.rules_bus.specs.Cases.{ReaderBeginsAnew, TwoTakeIt, AloneOnTheBus, AloneAfterThePacket, NothingToTake, WaitingBeginsAnew};
ghost use Rattle.rules_bus.specs.Filling.{ValidWordsFill};

/// Schedules worked by hand, with the commits, the cores, memory, the cores that are still to take a packet and what may happen next: a
/// packet makes a core begin anew; two cores take a packet, and no core commits before both have; a core whose set is full takes the bus,
/// and reads a word that it spilled; none takes the bus while a packet is on it; who wrote nothing sends none; a core that waited for the
/// bus begins anew; and what is read fills its line.
pub fn worked_bus_schedules()
    ensures anew { ReaderBeginsAnew }
    ensures taken { TwoTakeIt }
    ensures alone { AloneOnTheBus }
    ensures late { AloneAfterThePacket }
    ensures quiet { NothingToTake }
    ensures waiting { WaitingBeginsAnew }
    ensures fills { ValidWordsFill }
{}
