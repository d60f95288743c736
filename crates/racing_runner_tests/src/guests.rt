// Guests by their machine words. The first is at the entry, 00010054 (hexadecimal).

// Waits on a word of its stack: three turns, and none can step any more.
pub(crate) const WAITS_FOR_GOOD: [u32; 3] = [0x0001_0513, 0x0050_0893, 0x0000_0073];

// Reads its input, and ends once a read has an answer of no bytes.
pub(crate) const READS_A_PIECE: [u32; 8] = [
    0x0001_0593,
    0x00a0_0613,
    0x0030_0893,
    0x0000_0073,
    0x0000_0513,
    0x0000_0073,
    0x0010_0893,
    0x0000_0073,
];

// Thread 1 spawns three, and the four add one to a word three times each, under a lock of LR, SC, wait and wake. Then
// it waits for the three by their clear addresses, and ends the guest with the word as its code.
pub(crate) const LOCKED: [u32; 58] = [
    0x7fff_0437,
    0x0030_0913,
    0x0029_1313,
    0x0064_0333,
    0x0010_0293,
    0x0053_2823,
    0x0000_0517,
    0x0645_0513,
    0x0001_0593,
    0x0009_0613,
    0x0103_0693,
    0x0040_0893,
    0x0000_0073,
    0xfff9_0913,
    0xfc09_18e3,
    0x0540_00ef,
    0x0030_0913,
    0x0029_1313,
    0x0064_0333,
    0x0103_2283,
    0x0002_8c63,
    0x0103_0513,
    0x0002_8593,
    0x0050_0893,
    0x0000_0073,
    0xfe1f_f06f,
    0xfff9_0913,
    0xfc09_1ce3,
    0x0044_2503,
    0x0010_0893,
    0x0000_0073,
    0x7fff_0437,
    0x0100_00ef,
    0x0000_0513,
    0x0000_0893,
    0x0000_0073,
    0x0030_0493,
    0x0010_0293,
    0x1004_232f,
    0x0203_1c63,
    0x1854_23af,
    0xfe03_9ae3,
    0x0044_2e03,
    0x001e_0e13,
    0x01c4_2223,
    0x0804_202f,
    0x0004_0513,
    0x0010_0593,
    0x0060_0893,
    0x0000_0073,
    0xfff4_8493,
    0xfc04_94e3,
    0x0000_8067,
    0x0004_0513,
    0x0003_0593,
    0x0050_0893,
    0x0000_0073,
    0xfb1f_f06f,
];

// Thread 1 spawns a thread, counts to 3 and exits. The other yields, over and over, and counts in x5.
pub(crate) const EXITS_FIRST: [u32; 15] = [
    0x0000_0517,
    0x0285_0513,
    0x0040_0893,
    0x0000_0073,
    0x0030_0293,
    0xfff2_8293,
    0xfe02_9ee3,
    0x0090_0513,
    0x0000_0893,
    0x0000_0073,
    0x0060_0293,
    0x0022_8293,
    0x0070_0893,
    0x0000_0073,
    0xff5f_f06f,
];

// Thread 1 spawns a thread and waits on a word, with 8 in x5. The other counts in x6, wakes it after a while, and
// counts on.
pub(crate) const WAITS_FIRST: [u32; 22] = [
    0x7fff_0437,
    0x0080_0293,
    0x0000_0517,
    0x0285_0513,
    0x0040_0893,
    0x0000_0073,
    0x0004_0513,
    0x0000_0593,
    0x0050_0893,
    0x0000_0073,
    0x0012_8293,
    0xffdf_f06f,
    0x7fff_0437,
    0x0050_0313,
    0xfff3_0313,
    0xfe03_1ee3,
    0x0004_0513,
    0x0010_0593,
    0x0060_0893,
    0x0000_0073,
    0x0013_0313,
    0xffdf_f06f,
];

// Writes the 4,096 bytes of its page, over and over: four turns each.
pub(crate) const WRITES_MUCH: [u32; 7] = [
    0x0001_05b7,
    0x0000_1637,
    0x0020_0893,
    0x0010_0513,
    0x0000_0073,
    0x0012_8293,
    0xff5f_f06f,
];

// Reads 4,096 bytes, over and over: three turns each.
pub(crate) const READS_MUCH: [u32; 6] = [
    0x7fff_05b7,
    0x0000_1637,
    0x0030_0893,
    0x0000_0513,
    0x0000_0073,
    0xff9f_f06f,
];

// Asks for the time, over and over, and adds its low word to x5.
pub(crate) const CLOCKS: [u32; 4] = [0x0080_0893, 0x0000_0073, 0x00a2_82b3, 0xff5f_f06f];

// Seven turns, and then EBREAK.
pub(crate) const TRAPS: [u32; 8] = [
    0x0012_8293,
    0x0012_8293,
    0x0012_8293,
    0x0012_8293,
    0x0012_8293,
    0x0012_8293,
    0x0012_8293,
    0x0010_0073,
];
