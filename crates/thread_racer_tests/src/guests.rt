// Guests by their machine words. The first is at the entry, 00010054 (hexadecimal).

// Thread 1 takes five steps, which spawn thread 2. Then both count, each in its own words and with no call.
pub(crate) const PRIVATE: [u32; 10] = [
    0x0000_0517,
    0x0145_0513,
    0xf001_0593,
    0x0040_0893,
    0x0000_0073,
    0x0012_8293,
    0x0051_2023,
    0x0001_4303,
    0x0061_02a3,
    0xff1f_f06f,
];

// Thread 1 takes five steps, which spawn thread 2. Then both add 1 to the same word by AMOs, over and over.
pub(crate) const COUNTS: [u32; 10] = [
    0x0000_0517,
    0x0145_0513,
    0xf001_0593,
    0x0040_0893,
    0x0000_0073,
    0x7fff_0437,
    0x0010_0313,
    0x0064_23af,
    0x0012_8293,
    0xff9f_f06f,
];

// Thread 1 takes five steps, which spawn thread 2. With its 44th step after that it stores a flag, and then it jumps to
// itself. Thread 2 loads the flag until it is set, and ends the guest.
pub(crate) const SPINS: [u32; 18] = [
    0x0000_0517,
    0x0305_0513,
    0xf001_0593,
    0x0040_0893,
    0x0000_0073,
    0x7fff_0437,
    0x0140_0493,
    0xfff4_8493,
    0xfe04_9ee3,
    0x0010_0313,
    0x0064_2023,
    0x0000_006f,
    0x7fff_0437,
    0x0004_2383,
    0xfe03_8ee3,
    0x0050_0513,
    0x0010_0893,
    0x0000_0073,
];

// Thread 1 takes five steps, which spawn thread 2, and then jumps to itself. Thread 2 yields with its second step and
// with each second one after it.
pub(crate) const YIELDS: [u32; 9] = [
    0x0000_0517,
    0x0185_0513,
    0xf001_0593,
    0x0040_0893,
    0x0000_0073,
    0x0000_006f,
    0x0070_0893,
    0x0000_0073,
    0xffdf_f06f,
];

// Thread 1 takes 506 steps, which spawn 63 threads. Then all count, each in its own word.
pub(crate) const MANY: [u32; 13] = [
    0x03f0_0493,
    0x0001_0913,
    0xf009_0913,
    0x0000_0517,
    0x01c5_0513,
    0x0009_0593,
    0x0040_0893,
    0x0000_0073,
    0xfff4_8493,
    0xfe04_92e3,
    0x0012_8293,
    0x0051_2023,
    0xff9f_f06f,
];

// Thread 1 takes five steps, which spawn thread 2. Then both store 0 to a word and exit.
pub(crate) const BOTH_EXIT: [u32; 8] = [
    0x0001_0537,
    0x0685_0513,
    0x0001_0593,
    0x0040_0893,
    0x0000_0073,
    0x0001_2023,
    0x0000_0893,
    0x0000_0073,
];

// Thread 1 takes four steps, which spawn thread 2. Then it counts to 3 and exits. Thread 2 yields, over and over, and
// counts in x5.
pub(crate) const EXITS_FIRST: [u32; 15] = [
    0x0000_0517,
    0x0285_0513,
    0x0040_0893,
    0x0000_0073,
    0x0030_0293,
    0xfff2_8293,
    0xfe02_9ee3,
    0x0090_0513,
    0x0000_0893,
    0x0000_0073,
    0x0060_0293,
    0x0022_8293,
    0x0070_0893,
    0x0000_0073,
    0xff5f_f06f,
];

// Thread 1 takes six steps, which spawn thread 2, and waits on a word, with 8 in x5. Thread 2 counts in x6, wakes
// thread 1 after a while, and counts on.
pub(crate) const WAITS_FIRST: [u32; 22] = [
    0x7fff_0437,
    0x0080_0293,
    0x0000_0517,
    0x0285_0513,
    0x0040_0893,
    0x0000_0073,
    0x0004_0513,
    0x0000_0593,
    0x0050_0893,
    0x0000_0073,
    0x0012_8293,
    0xffdf_f06f,
    0x7fff_0437,
    0x0050_0313,
    0xfff3_0313,
    0xfe03_1ee3,
    0x0004_0513,
    0x0010_0593,
    0x0060_0893,
    0x0000_0073,
    0x0013_0313,
    0xffdf_f06f,
];

// Writes the 4,096 bytes of its page, over and over: four turns each.
pub(crate) const WRITES_MUCH: [u32; 7] = [
    0x0001_05b7,
    0x0000_1637,
    0x0020_0893,
    0x0010_0513,
    0x0000_0073,
    0x0012_8293,
    0xff5f_f06f,
];

// Reads its input, and ends once a read has an answer of no bytes.
pub(crate) const READS_A_PIECE: [u32; 8] = [
    0x0001_0593,
    0x00a0_0613,
    0x0030_0893,
    0x0000_0073,
    0x0000_0513,
    0x0000_0073,
    0x0010_0893,
    0x0000_0073,
];

// Thread 1 takes five steps, which spawn thread 2. Then both count down from 20,480 in 40,961 steps, and read with
// their fifth step after that, over and over.
pub(crate) const BOTH_READ: [u32; 14] = [
    0x0000_0517,
    0x0145_0513,
    0xf001_0593,
    0x0040_0893,
    0x0000_0073,
    0x0000_54b7,
    0xfff4_8493,
    0xfe04_9ee3,
    0x0000_0513,
    0x0001_0593,
    0x00a0_0613,
    0x0030_0893,
    0x0000_0073,
    0xfe1f_f06f,
];

// Thread 1 takes 15 steps, which spawn threads 2 and 3. Each of the two exits with its 14th step. Thread 1 waits for
// them by their clear addresses, one after the other, and loads each word before it waits. Then it counts.
pub(crate) const TWO_EXIT: [u32; 37] = [
    0x7fff_0437,
    0x0010_0293,
    0x0054_2823,
    0x0054_2a23,
    0x0000_0517,
    0x06c5_0513,
    0xf001_0593,
    0x0104_0693,
    0x0040_0893,
    0x0000_0073,
    0x0000_0517,
    0x0545_0513,
    0xe001_0593,
    0x0144_0693,
    0x0000_0073,
    0x0104_2283,
    0x0002_8c63,
    0x0104_0513,
    0x0002_8593,
    0x0050_0893,
    0x0000_0073,
    0xfe9f_f06f,
    0x0144_2283,
    0x0002_8c63,
    0x0144_0513,
    0x0002_8593,
    0x0050_0893,
    0x0000_0073,
    0xfe9f_f06f,
    0x0014_8493,
    0xffdf_f06f,
    0x0050_0313,
    0xfff3_0313,
    0xfe03_1ee3,
    0x0000_0513,
    0x0000_0893,
    0x0000_0073,
];

// Thread 1 spawns three, and the four add one to a word three times each, under a lock of LR, SC, wait and wake. Then
// it waits for the three by their clear addresses, and ends the guest with the word as its code.
pub(crate) const LOCKED: [u32; 58] = [
    0x7fff_0437,
    0x0030_0913,
    0x0029_1313,
    0x0064_0333,
    0x0010_0293,
    0x0053_2823,
    0x0000_0517,
    0x0645_0513,
    0x0001_0593,
    0x0009_0613,
    0x0103_0693,
    0x0040_0893,
    0x0000_0073,
    0xfff9_0913,
    0xfc09_18e3,
    0x0540_00ef,
    0x0030_0913,
    0x0029_1313,
    0x0064_0333,
    0x0103_2283,
    0x0002_8c63,
    0x0103_0513,
    0x0002_8593,
    0x0050_0893,
    0x0000_0073,
    0xfe1f_f06f,
    0xfff9_0913,
    0xfc09_1ce3,
    0x0044_2503,
    0x0010_0893,
    0x0000_0073,
    0x7fff_0437,
    0x0100_00ef,
    0x0000_0513,
    0x0000_0893,
    0x0000_0073,
    0x0030_0493,
    0x0010_0293,
    0x1004_232f,
    0x0203_1c63,
    0x1854_23af,
    0xfe03_9ae3,
    0x0044_2e03,
    0x001e_0e13,
    0x01c4_2223,
    0x0804_202f,
    0x0004_0513,
    0x0010_0593,
    0x0060_0893,
    0x0000_0073,
    0xfff4_8493,
    0xfc04_94e3,
    0x0000_8067,
    0x0004_0513,
    0x0003_0593,
    0x0050_0893,
    0x0000_0073,
    0xfb1f_f06f,
];

// Asks for the time, over and over, and adds its low word to x5.
pub(crate) const CLOCKS: [u32; 4] = [0x0080_0893, 0x0000_0073, 0x00a2_82b3, 0xff5f_f06f];
