//! Declarations of a WebAssembly module: what its imports and exports are to TypeScript.
//!
//! The bytes of a module come in; its declaration text goes out, or the first rule of the binary format
//! that the bytes break, with its place. Bytes are read into parts (`parts` over `entry`, the entries of
//! each section, and `leb128`), and the parts are written as text (`declarations` over `import_text` and
//! `export_text`).
#![tactic(auto)]

mod declarations;
mod entry;
mod export_text;
mod exports;
mod globals;
mod identifier;
mod import_text;
mod imports;
mod input;
mod leb128;
mod parts;
mod refusal;
mod spaces;
mod types;
mod values;
mod writing;

pub use declarations::wasm_module_to_dts;
pub use refusal::WasmRefusal;
