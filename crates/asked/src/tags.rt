// The tags of the line language: two octal digits for each letter, 01 for a to 32 for z.
pub const TABLE: u64 = 0o24_01_02_14_05;

pub const CELLS: u64 = 0o03_05_14_14_23;

pub const RULES: u64 = 0o22_25_14_05_23;

pub const RULE: u64 = 0o22_25_14_05;

pub const TEXT: u64 = 0o24_05_30_24;

pub const CHECK: u64 = 0o03_10_05_03_13;

pub const CHECKRULES: u64 = 0o03_10_05_03_13_22_25_14_05_23;

pub const READRULES: u64 = 0o22_05_01_04_22_25_14_05_23;

pub const WRITERULES: u64 = 0o27_22_11_24_05_22_25_14_05_23;

pub const BS: u64 = 0o02_23;

pub const AD: u64 = 0o01_04;

pub const LEN: u64 = 0o14_05_16;

pub const VALID: u64 = 0o26_01_14_11_04;

pub const STEP: u64 = 0o23_24_05_20;

pub const DAY: u64 = 0o04_01_31;

pub const DATE: u64 = 0o04_01_24_05;

pub const JD: u64 = 0o12_04;

pub const DELTAT: u64 = 0o04_05_14_24_01_24;

pub const TT: u64 = 0o24_24;

pub const SUN: u64 = 0o23_25_16;

pub const MOON: u64 = 0o15_17_17_16;

pub const ELONG: u64 = 0o05_14_17_16_07;

pub const TITHI: u64 = 0o24_11_24_10_11;

pub const TITHIOF: u64 = 0o24_11_24_10_11_17_06;

pub const STARTS: u64 = 0o23_24_01_22_24_23;

pub const END: u64 = 0o05_16_04;

pub const EVENTS: u64 = 0o05_26_05_16_24_23;

pub const RISE: u64 = 0o22_11_23_05;

pub const SET: u64 = 0o23_05_24;

pub const KALA: u64 = 0o13_01_14_01;

pub const NISHITA: u64 = 0o16_11_23_10_11_24_01;

pub const NPT: u64 = 0o16_20_24;

pub const CLOCK: u64 = 0o03_14_17_03_13;

pub const MINUTES: u64 = 0o15_11_16_25_24_05_23;

pub const READ: u64 = 0o22_05_01_04;

pub const LISTBS: u64 = 0o14_11_23_24_02_23;

pub const LISTAD: u64 = 0o14_11_23_24_01_04;

pub const GRID: u64 = 0o07_22_11_04;

pub const HOLIDAY: u64 = 0o10_17_14_11_04_01_31;

pub const START: u64 = 0o23_24_01_22_24;

pub const TAKE: u64 = 0o24_01_13_05;

pub const APPEND: u64 = 0o01_20_20_05_16_04;

pub const ASKBS: u64 = 0o01_23_13_02_23;

pub const ASKAD: u64 = 0o01_23_13_01_04;

pub const ASKGRID: u64 = 0o01_23_13_07_22_11_04;

pub const FORGET: u64 = 0o06_17_22_07_05_24;

pub const STORED: u64 = 0o23_24_17_22_05_04;

pub const SIN: u64 = 0o23_11_16;

pub const COS: u64 = 0o03_17_23;

pub const ASIN: u64 = 0o01_23_11_16;

pub const ACOS: u64 = 0o01_03_17_23;

pub const TAN: u64 = 0o24_01_16;
