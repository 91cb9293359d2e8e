//! The errors that this switch answers, by the names of the standard (OpenFlow 1.3.5, 7.4.4). Definitions and code cite them from here.
use crate::code::Code;

pub const OFPHFC_INCOMPATIBLE: Code = Code { kind: 0, code: 0 };

pub const OFPBRC_BAD_VERSION: Code = Code { kind: 1, code: 0 };

pub const OFPBRC_BAD_TYPE: Code = Code { kind: 1, code: 1 };

pub const OFPBRC_BAD_MULTIPART: Code = Code { kind: 1, code: 2 };

pub const OFPBRC_BAD_EXPERIMENTER: Code = Code { kind: 1, code: 3 };

pub const OFPBRC_BAD_LEN: Code = Code { kind: 1, code: 6 };

pub const OFPBRC_BUFFER_UNKNOWN: Code = Code { kind: 1, code: 8 };

pub const OFPBRC_BAD_TABLE_ID: Code = Code { kind: 1, code: 9 };

pub const OFPBRC_IS_SLAVE: Code = Code { kind: 1, code: 10 };

pub const OFPBRC_BAD_PORT: Code = Code { kind: 1, code: 11 };

pub const OFPBRC_BAD_PACKET: Code = Code { kind: 1, code: 12 };

pub const OFPBRC_MULTIPART_BUFFER_OVERFLOW: Code = Code { kind: 1, code: 13 };

pub const OFPBAC_BAD_TYPE: Code = Code { kind: 2, code: 0 };

pub const OFPBAC_BAD_LEN: Code = Code { kind: 2, code: 1 };

pub const OFPBAC_BAD_EXPERIMENTER: Code = Code { kind: 2, code: 2 };

pub const OFPBAC_BAD_OUT_PORT: Code = Code { kind: 2, code: 4 };

pub const OFPBAC_BAD_ARGUMENT: Code = Code { kind: 2, code: 5 };

pub const OFPBAC_TOO_MANY: Code = Code { kind: 2, code: 7 };

pub const OFPBAC_BAD_OUT_GROUP: Code = Code { kind: 2, code: 9 };

pub const OFPBAC_MATCH_INCONSISTENT: Code = Code { kind: 2, code: 10 };

pub const OFPBAC_BAD_SET_TYPE: Code = Code { kind: 2, code: 13 };

pub const OFPBAC_BAD_SET_LEN: Code = Code { kind: 2, code: 14 };

pub const OFPBAC_BAD_SET_ARGUMENT: Code = Code { kind: 2, code: 15 };

pub const OFPBIC_UNKNOWN_INST: Code = Code { kind: 3, code: 0 };

pub const OFPBIC_UNSUP_INST: Code = Code { kind: 3, code: 1 };

pub const OFPBIC_BAD_TABLE_ID: Code = Code { kind: 3, code: 2 };

pub const OFPBIC_BAD_EXPERIMENTER: Code = Code { kind: 3, code: 5 };

pub const OFPBIC_BAD_LEN: Code = Code { kind: 3, code: 7 };

pub const OFPBMC_BAD_TYPE: Code = Code { kind: 4, code: 0 };

pub const OFPBMC_BAD_LEN: Code = Code { kind: 4, code: 1 };

pub const OFPBMC_BAD_WILDCARDS: Code = Code { kind: 4, code: 5 };

pub const OFPBMC_BAD_FIELD: Code = Code { kind: 4, code: 6 };

pub const OFPBMC_BAD_VALUE: Code = Code { kind: 4, code: 7 };

pub const OFPBMC_BAD_MASK: Code = Code { kind: 4, code: 8 };

pub const OFPBMC_BAD_PREREQ: Code = Code { kind: 4, code: 9 };

pub const OFPBMC_DUP_FIELD: Code = Code { kind: 4, code: 10 };

pub const OFPFMFC_TABLE_FULL: Code = Code { kind: 5, code: 1 };

pub const OFPFMFC_BAD_TABLE_ID: Code = Code { kind: 5, code: 2 };

pub const OFPFMFC_OVERLAP: Code = Code { kind: 5, code: 3 };

pub const OFPFMFC_BAD_COMMAND: Code = Code { kind: 5, code: 6 };

pub const OFPFMFC_BAD_FLAGS: Code = Code { kind: 5, code: 7 };

pub const OFPGMFC_GROUP_EXISTS: Code = Code { kind: 6, code: 0 };

pub const OFPGMFC_INVALID_GROUP: Code = Code { kind: 6, code: 1 };

pub const OFPGMFC_OUT_OF_GROUPS: Code = Code { kind: 6, code: 3 };

pub const OFPGMFC_OUT_OF_BUCKETS: Code = Code { kind: 6, code: 4 };

pub const OFPGMFC_LOOP: Code = Code { kind: 6, code: 7 };

pub const OFPGMFC_UNKNOWN_GROUP: Code = Code { kind: 6, code: 8 };

pub const OFPGMFC_CHAINED_GROUP: Code = Code { kind: 6, code: 9 };

pub const OFPGMFC_BAD_TYPE: Code = Code { kind: 6, code: 10 };

pub const OFPGMFC_BAD_COMMAND: Code = Code { kind: 6, code: 11 };

pub const OFPGMFC_BAD_BUCKET: Code = Code { kind: 6, code: 12 };

pub const OFPGMFC_BAD_WATCH: Code = Code { kind: 6, code: 13 };

pub const OFPPMFC_BAD_PORT: Code = Code { kind: 7, code: 0 };

pub const OFPPMFC_BAD_HW_ADDR: Code = Code { kind: 7, code: 1 };

pub const OFPPMFC_BAD_CONFIG: Code = Code { kind: 7, code: 2 };

pub const OFPTMFC_BAD_TABLE: Code = Code { kind: 8, code: 0 };

pub const OFPSCFC_BAD_FLAGS: Code = Code { kind: 10, code: 0 };

pub const OFPRRFC_STALE: Code = Code { kind: 11, code: 0 };

pub const OFPRRFC_BAD_ROLE: Code = Code { kind: 11, code: 2 };
