ghost use Rattle.std.specs.Prelude.{⊤, [], ◌∷◌, codes};

use bitflags::{Flag, Flags};

/// The features of an RPMsg device (`virtio_rpmsg_bus.c` of Linux).
#[derive(Clone, Copy)]
pub struct DeviceFeatures(pub u32);

impl DeviceFeatures {
    /// The remote announces its channels (`VIRTIO_RPMSG_F_NS`).
    pub const NAME_SERVICE: DeviceFeatures = DeviceFeatures(1);

    const FLAGS: &'static [Flag<DeviceFeatures>] = &[Flag {
        name: "NAME_SERVICE",
        value: DeviceFeatures::NAME_SERVICE,
    }];
}

impl Flags for DeviceFeatures {
    type Bits = u32;

    ghost exact = { ⊤ };

    ghost table = { (codes "NAME_SERVICE", 1) ∷ [] };

    ghost set_of = { λ features. features.0 };

    fn flags<'a>() -> &'a [Flag<DeviceFeatures>] {
        DeviceFeatures::FLAGS
    }

    fn bits(&self) -> u32 {
        self.0
    }

    fn from_bits_retain(bits: u32) -> DeviceFeatures {
        DeviceFeatures(bits)
    }
}

/// The status of a device (VIRTIO 1.2, section 2.1).
#[derive(Clone, Copy)]
pub struct DeviceStatus(pub u8);

impl DeviceStatus {
    /// The driver has found the device.
    pub const ACKNOWLEDGE: DeviceStatus = DeviceStatus(1);

    /// The driver knows how to drive the device.
    pub const DRIVER: DeviceStatus = DeviceStatus(2);

    /// The driver is ready.
    pub const DRIVER_OK: DeviceStatus = DeviceStatus(4);

    const FLAGS: &'static [Flag<DeviceStatus>] = &[
        Flag {
            name: "ACKNOWLEDGE",
            value: DeviceStatus::ACKNOWLEDGE,
        },
        Flag {
            name: "DRIVER",
            value: DeviceStatus::DRIVER,
        },
        Flag {
            name: "DRIVER_OK",
            value: DeviceStatus::DRIVER_OK,
        },
    ];
}

impl Flags for DeviceStatus {
    type Bits = u8;

    ghost exact = { ⊤ };

    ghost table = { (codes "ACKNOWLEDGE", 1) ∷ (codes "DRIVER", 2) ∷ (codes "DRIVER_OK", 4) ∷ [] };

    ghost set_of = { λ status. status.0 };

    fn flags<'a>() -> &'a [Flag<DeviceStatus>] {
        DeviceStatus::FLAGS
    }

    fn bits(&self) -> u8 {
        self.0
    }

    fn from_bits_retain(bits: u8) -> DeviceStatus {
        DeviceStatus(bits)
    }
}
