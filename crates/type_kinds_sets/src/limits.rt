/// How many values a set lists at most. With more of them it is an interval, or has all.
pub const MAX_MEMBERS: usize = 13;
