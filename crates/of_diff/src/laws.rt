//! What it means for the controllers of two switches that a frame is treated alike.
ghost use Rattle.std.specs.Prelude.{◌≡◌, List};
ghost use Rattle.of_ports.specs.declared.port.Port.{Port as ThePort};
ghost use Rattle.of_machine.specs.declared.data.Item.{Item};
ghost use Rattle.of_datapath.specs.{declared.control.AsyncConfig.AsyncConfig, Told.given_items};
ghost use Rattle.of_alike.specs.{Alike.LeavesAlike, Alike.to_controller, SamePorts.SamePorts, declared.alike.Compared.TheVariants.All};

/// If a frame is treated alike, the controllers get the same PACKET_INs, if they want the same ones (OpenFlow 1.3.5, 7.2.1 and 7.4.1): OFPPC_NO_PACKET_IN
/// silences the same ports, and what is sent of each packet depends on what its controller has set alone.
pub fn controllers_are_told_alike()
    ensures { (heard : AsyncConfig) (ps qs : List ThePort) (a b : List Item) → SamePorts ps qs → LeavesAlike All a b →
        to_controller (given_items heard ps a) ≡ to_controller (given_items heard qs b) }
{}
