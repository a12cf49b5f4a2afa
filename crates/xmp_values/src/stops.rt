//! Why a call gives no value: one type for each shape of failure. The crates above give their own
//! names to these, as `pub use xmp_values::PlaceStop as XmlStop`.
ghost use Rattle.std.specs.Prelude.{◌≡◌};
ghost use Rattle.xmp_values.specs.Stops.{fault_at, stop_at, stop_in, device_stop, file_stop};

use crate::faults::{Fault, Part, Place};
use crate::memory::Memory;
use crate::rules::Rule;

/// The broken rule, or out of memory.
#[derive(Clone, Copy, Debug, PartialEq, Eq, Drop)]
pub enum RuleStop {
    Fault(Rule),
    Memory,
}

/// The broken rule and its place, or out of memory.
#[derive(Clone, Copy, Debug, PartialEq, Eq, Drop)]
pub enum PlaceStop {
    Fault(Rule, u64),
    Memory,
}

/// The fault, with the part of the work that it stands in, or out of memory.
#[derive(Clone, Copy, Debug, PartialEq, Eq, Drop)]
pub enum FaultStop {
    Fault(Fault),
    Memory,
}

/// The broken rule and its place in a file of a device, or the device failed, or out of memory.
#[derive(Clone, Copy, Debug, PartialEq, Eq, Drop)]
pub enum DeviceStop {
    Fault(Rule, u64),
    /// A call of the device failed, and was counted.
    Device,
    Memory,
}

/// Why a device's file gives nothing.
#[derive(Clone, Copy, Debug, PartialEq, Eq, Drop)]
pub enum FileStop {
    /// There is no file of this name, and the miss was counted.
    Absent,
    Fault(Fault),
    /// A call of the device failed, and was counted.
    Device,
    Memory,
}

impl From<Memory> for RuleStop {
    ghost use Rattle.xmp_values.specs.declared.stops.RuleStop.TheVariants as stop;

    ghost from_gives = { λ _ e. e ≡ stop.Memory };

    fn from(_memory: Memory) -> RuleStop {
        RuleStop::Memory
    }
}

impl From<Memory> for PlaceStop {
    ghost use Rattle.xmp_values.specs.declared.stops.PlaceStop.TheVariants as stop;

    ghost from_gives = { λ _ e. e ≡ stop.Memory };

    fn from(_memory: Memory) -> PlaceStop {
        PlaceStop::Memory
    }
}

impl From<Memory> for FaultStop {
    ghost use Rattle.xmp_values.specs.declared.stops.FaultStop.TheVariants as stop;

    ghost from_gives = { λ _ e. e ≡ stop.Memory };

    fn from(_memory: Memory) -> FaultStop {
        FaultStop::Memory
    }
}

impl From<Memory> for DeviceStop {
    ghost use Rattle.xmp_values.specs.declared.stops.DeviceStop.TheVariants as stop;

    ghost from_gives = { λ _ e. e ≡ stop.Memory };

    fn from(_memory: Memory) -> DeviceStop {
        DeviceStop::Memory
    }
}

impl From<Memory> for FileStop {
    ghost use Rattle.xmp_values.specs.declared.stops.FileStop.TheVariants as stop;

    ghost from_gives = { λ _ e. e ≡ stop.Memory };

    fn from(_memory: Memory) -> FileStop {
        FileStop::Memory
    }
}

/// A device that holds the file gives the same answers, and its own failures besides.
impl From<PlaceStop> for DeviceStop {
    ghost from_gives = { λ stop e. e ≡ device_stop stop };

    fn from(stop: PlaceStop) -> DeviceStop {
        match stop {
            PlaceStop::Fault(rule, at) => DeviceStop::Fault(rule, at),
            PlaceStop::Memory => DeviceStop::Memory,
        }
    }
}

impl From<FaultStop> for FileStop {
    ghost from_gives = { λ stop e. e ≡ file_stop stop };

    fn from(stop: FaultStop) -> FileStop {
        match stop {
            FaultStop::Fault(fault) => FileStop::Fault(fault),
            FaultStop::Memory => FileStop::Memory,
        }
    }
}

impl RuleStop {
    /// The same with the place at which the rule is broken.
    pub fn at(self, place: u64) -> PlaceStop
        ensures { result ≡ stop_at self place }
    {
        match self {
            RuleStop::Fault(rule) => PlaceStop::Fault(rule, place),
            RuleStop::Memory => PlaceStop::Memory,
        }
    }
}

impl PlaceStop {
    /// The same with the part of the work in which the place is counted. The fault's numbers are 0.
    pub fn within(self, part: Part) -> FaultStop
        ensures { result ≡ stop_in self part }
    {
        match self {
            PlaceStop::Fault(rule, at) => FaultStop::Fault(Fault::at(rule, part, at)),
            PlaceStop::Memory => FaultStop::Memory,
        }
    }
}

impl Fault {
    /// The fault of a rule without numbers.
    pub fn at(rule: Rule, part: Part, at: u64) -> Fault
        ensures { result ≡ fault_at rule part at }
    {
        Fault {
            rule,
            place: Place { part, at },
            x: 0,
            y: 0,
        }
    }
}
