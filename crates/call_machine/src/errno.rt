//! Answers of calls that failed: minus a number of errno(3), as a word.

/// No such file or directory.
pub const ENOENT: u64 = u64::MAX - 1;

/// Argument list too long.
pub const E2BIG: u64 = u64::MAX - 6;

/// Exec format error.
pub const ENOEXEC: u64 = u64::MAX - 7;

/// Bad file descriptor.
pub const EBADF: u64 = u64::MAX - 8;

/// No child processes.
pub const ECHILD: u64 = u64::MAX - 9;

/// Resource temporarily unavailable.
pub const EAGAIN: u64 = u64::MAX - 10;

/// Not enough space.
pub const ENOMEM: u64 = u64::MAX - 11;

/// Permission denied.
pub const EACCES: u64 = u64::MAX - 12;

/// Bad address.
pub const EFAULT: u64 = u64::MAX - 13;

/// File exists.
pub const EEXIST: u64 = u64::MAX - 16;

/// Not a directory.
pub const ENOTDIR: u64 = u64::MAX - 19;

/// Is a directory.
pub const EISDIR: u64 = u64::MAX - 20;

/// Invalid argument.
pub const EINVAL: u64 = u64::MAX - 21;

/// Too many open files in system.
pub const ENFILE: u64 = u64::MAX - 22;

/// Too many open files.
pub const EMFILE: u64 = u64::MAX - 23;

/// File too large.
pub const EFBIG: u64 = u64::MAX - 26;

/// No space left on device.
pub const ENOSPC: u64 = u64::MAX - 27;

/// Invalid seek.
pub const ESPIPE: u64 = u64::MAX - 28;

/// Filename too long.
pub const ENAMETOOLONG: u64 = u64::MAX - 35;

/// Function not implemented.
pub const ENOSYS: u64 = u64::MAX - 37;
