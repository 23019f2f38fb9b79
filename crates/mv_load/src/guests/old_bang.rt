//! The first version with the same fault.

/// Its text.
pub const TEXT: &str = "\
type ->
type i32 ->
type i32 -> i32
type i32 i32 i32 -> i32
type i32 i32 i32 i32 -> i32
type -> i32
type i32 -> i64
import \"live\" \"point\" 5
import \"live\" \"old_read\" 3
import \"live\" \"old_global\" 6
import \"wasi_snapshot_preview1\" \"sock_accept\" 3
import \"wasi_snapshot_preview1\" \"fd_read\" 4
import \"wasi_snapshot_preview1\" \"fd_write\" 4
import \"wasi_snapshot_preview1\" \"fd_close\" 2
import \"wasi_snapshot_preview1\" \"proc_exit\" 1
memory 1
global i32 var 0
export \"count\" global 0
export \"_start\" func 9
export \"live_resume\" func 10
export \"live_transform\" func 11
data 1032 \"\\x00\\x08\\x00\\x00\\x40\\x00\\x00\\x00\"
data 1040 \"\\x50\\x04\\x00\\x00\\x03\\x00\\x00\\x00\"
data 1104 \"OK\\x0a\"
;; serve_loop
func 0 i32
loop
call 0
drop
i32.const 1024
i32.load 2 0
i32.eqz
if
i32.const 3
i32.const 0
i32.const 1024
call 3
local.tee 0
if
local.get 0
i32.const 6
i32.ne
call 7
end
end
i32.const 1024
i32.load 2 0
i32.const 1032
i32.const 1
i32.const 1048
call 4
if
i32.const 2
call 7
end
i32.const 1048
i32.load 2 0
if
i32.const 2048
i32.load8_u 0 0
i32.const 33
i32.eq
if
unreachable
end
global.get 0
i32.const 1
i32.add
global.set 0
i32.const 1024
i32.load 2 0
i32.const 1040
i32.const 1
i32.const 1048
call 5
drop
else
i32.const 1024
i32.load 2 0
call 6
drop
i32.const 1024
i32.const 0
i32.store 2 0
end
br 0
end
endfunc
;; _start
func 0
call 8
endfunc
;; live_resume
func 0
call 8
endfunc
;; live_transform
func 5
i32.const 1024
i32.const 1024
i32.const 4
call 1
if
i32.const 1
return
end
i32.const 0
call 2
i32.wrap_i64
global.set 0
i32.const 0
endfunc
";
