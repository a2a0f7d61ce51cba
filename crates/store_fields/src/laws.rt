//! What holds of the bytes of fields.
ghost use Rattle.std.specs.Int.{w16, w32, w64, w128};
ghost use Rattle.store_fields.specs.Fields.{bytes_of_number, bytes_of_byte, bytes_of_flag, bytes_of_text, bytes_of_blob, bytes_of_digest};
ghost use Rattle.store_fields.specs.declared.limits.TheConstants.{MAX_TEXT};
ghost use Rattle.store_fields.specs.Fields.{IsNumber, IsByte, IsFlag, IsText, IsBlob, IsDigest};
ghost use Rattle.store_fields.specs.Reading.{IsUnique};

/// No two fields of a kind have the same bytes, and none has a front of another's.
pub fn bytes_are_of_one_value()
    ensures byte { IsUnique bytes_of_byte IsByte }
    ensures flag { IsUnique bytes_of_flag IsFlag }
    ensures number_16 { IsUnique (bytes_of_number w16) (IsNumber w16) }
    ensures number_32 { IsUnique (bytes_of_number w32) (IsNumber w32) }
    ensures number_64 { IsUnique (bytes_of_number w64) (IsNumber w64) }
    ensures number_128 { IsUnique (bytes_of_number w128) (IsNumber w128) }
    ensures digest { IsUnique bytes_of_digest IsDigest }
    ensures text { IsUnique bytes_of_text (IsText MAX_TEXT) }
    ensures blob { IsUnique bytes_of_blob IsBlob }
{}
