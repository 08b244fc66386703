// The messages of the parcel scales (document 003, section 3), by the names that the paper gives them.

// The weight that a scale answers: a signed count of divisions. A division is 0 to 4, 100 mg to 1 kg. Stable is 0 or 1.
#[derive(Clone, Copy, Debug, PartialEq, Eq)]
pub struct ParcelWeight {
    pub count: i32,
    pub division: u8,
    pub stable: u8,
}

// A message, from us or from a scale. A tare is in grams. 003 says of a tare of 0 that the scale takes the weight that stands on it as tare:
// it does not clear the tare. Only the answer 10 has a weight: 12 and F0 have no field at all, and a serial is no weight.
#[derive(Clone, Copy, Debug, PartialEq, Eq)]
pub enum Parcel {
    GetWeight, // A0, CMD_GET_WEIGHT
    SetTare(i32), // A3, CMD_SET_TARE
    GetDeviceId, // 90, CMD_GET_DEVICE_ID
    AckWeight(ParcelWeight), // 10, CMD_ACK_WEIGHT
    AckCommand, // 12, CMD_ACK_COMMAND: the command was taken
    AckDeviceId(u32), // 50, CMD_ACK_DEVICE_ID: the scale's serial
    Nack, // F0, CMD_NACK: the scale does not know the command
}
