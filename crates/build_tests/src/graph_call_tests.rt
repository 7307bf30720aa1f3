// Calls on graphs whose answers no whole run shows.
//
// Rows stand in blocks, with a blank line between: a graph, and below it lines `CALL | ANSWER`. The graph is a world file, and behind ` & `
// what no build makes of it (`graph_worlds.rt`).
use crate::graph_known::{
    assets, checked, counted, declared, known, led, marked, named, packaged, placed, preferred,
    resolved,
};
use crate::graph_worlds::graph_of;
use crate::walk_shown::{failed, skipped, walked};
use graph_core::{ImportKind, ModuleGraph};
use graph_tests::{imports, url};
use graph_walk::{AllCheckJs, CheckJsResolver, json_text};
use std::alloc::Global;
use std::test::Fail;

// The answer of a call on a graph.
fn answer(alloc: Global, graph: &ModuleGraph, call: &str) -> Result<String, Fail> {
    let (word, rest) = call.split_once(" ").unwrap_or((call, ""));
    match word {
        "imports" => imports(alloc, graph, rest),
        "resolved" => resolved(alloc, graph, rest),
        "led" => led(alloc, graph, rest),
        "preferred" => preferred(alloc, graph, rest),
        "counted" => counted(alloc, graph),
        "known" => known(alloc, graph),
        "assets" => assets(alloc, graph),
        "marked" => marked(alloc, graph),
        "placed" => placed(alloc, graph, rest),
        "named" => named(alloc, graph, rest),
        "declared" => declared(alloc, graph, rest),
        "packaged" => packaged(alloc, graph, rest),
        "checked" => checked(alloc, graph),
        "walked" => walked(alloc, graph, rest),
        "skipped" => skipped(alloc, graph, rest),
        "failed" => failed(alloc, graph, rest),
        "json" => Ok(json_text(alloc, graph)?),
        _ => Err(Fail::new("no call")),
    }
}

fn answers(alloc: Global, graph: &ModuleGraph, line: &str) -> Result<bool, Fail> {
    let (call, wanted) = line.split_once(" | ").unwrap_or((line, ""));
    let answer = answer(alloc, graph, call)?;
    Ok(answer.as_str().trim_end() == wanted)
}

// Nothing where each line of a block is answered so; else the first that is not.
fn block_answers(alloc: Global, block: &str) -> Result<(), Fail> {
    let (graph, lines) = block.split_once("\n").unwrap_or((block, ""));
    let graph = graph_of(alloc, graph)?;
    for line in lines.lines() {
        if !answers(alloc, graph.get(), line)? {
            return Err(Fail::new(line));
        }
    }
    Ok(())
}

fn all_answer(alloc: Global, rows: &str) -> Result<(), Fail> {
    for block in rows.split("\n\n") {
        block_answers(alloc, block)?;
    }
    Ok(())
}

// The kind and the mode of the first import, the code, the types, the text of the types, and how many imports there are, of each
// dependency.
const IMPORTS: &str =
    r#"{"version":1,"roots":["file:///a/m.ts"],"sources":{"file:///a/m.ts":{"kind":"module","text":"A"}},"infos":{"file:///a/m.ts":{"dependencies":[{"type":"static","kind":"import","specifier":"./import.ts","specifierRange":[[0,7],[0,20]]},{"type":"static","kind":"import","specifier":"./import-typed.ts","specifierRange":[[0,36],[0,55]],"typesSpecifier":{"text":"./c.d.ts","range":[[0,36],[0,46]]}},{"type":"static","kind":"importDefer","specifier":"./importDefer.ts","specifierRange":[[0,80],[0,98]]},{"type":"static","kind":"importDefer","specifier":"./importDefer-typed.ts","specifierRange":[[0,119],[0,143]],"typesSpecifier":{"text":"./c.d.ts","range":[[0,119],[0,129]]}},{"type":"static","kind":"importSource","specifier":"./importSource.ts","specifierRange":[[0,173],[0,192]]},{"type":"static","kind":"importSource","specifier":"./importSource-typed.ts","specifierRange":[[0,214],[0,239]],"typesSpecifier":{"text":"./c.d.ts","range":[[0,214],[0,224]]}},{"type":"static","kind":"importType","specifier":"./importType.ts","specifierRange":[[0,270],[0,287]]},{"type":"static","kind":"importType","specifier":"./importType-typed.ts","specifierRange":[[0,307],[0,330]],"typesSpecifier":{"text":"./c.d.ts","range":[[0,307],[0,317]]}},{"type":"static","kind":"importEquals","specifier":"./importEquals.ts","specifierRange":[[0,359],[0,378]]},{"type":"static","kind":"importEquals","specifier":"./importEquals-typed.ts","specifierRange":[[0,400],[0,425]],"typesSpecifier":{"text":"./c.d.ts","range":[[0,400],[0,410]]}},{"type":"static","kind":"export","specifier":"./export.ts","specifierRange":[[0,456],[0,469]]},{"type":"static","kind":"export","specifier":"./export-typed.ts","specifierRange":[[0,485],[0,504]],"typesSpecifier":{"text":"./c.d.ts","range":[[0,485],[0,495]]}},{"type":"static","kind":"exportType","specifier":"./exportType.ts","specifierRange":[[0,529],[0,546]]},{"type":"static","kind":"exportType","specifier":"./exportType-typed.ts","specifierRange":[[0,566],[0,589]],"typesSpecifier":{"text":"./c.d.ts","range":[[0,566],[0,576]]}},{"type":"static","kind":"exportEquals","specifier":"./exportEquals.ts","specifierRange":[[0,618],[0,637]]},{"type":"static","kind":"exportEquals","specifier":"./exportEquals-typed.ts","specifierRange":[[0,659],[0,684]],"typesSpecifier":{"text":"./c.d.ts","range":[[0,659],[0,669]]}},{"type":"static","kind":"maybeTsModuleAugmentation","specifier":"./maybeTsModuleAugmentation.ts","specifierRange":[[0,715],[0,747]]},{"type":"static","kind":"maybeTsModuleAugmentation","specifier":"./maybeTsModuleAugmentation-typed.ts","specifierRange":[[0,782],[0,820]],"typesSpecifier":{"text":"./c.d.ts","range":[[0,782],[0,792]]}},{"type":"dynamic","kind":"import","argument":"./call-import.ts","argumentRange":[[0,864],[0,882]]},{"type":"dynamic","kind":"import","argument":"./call-import-typed.ts","argumentRange":[[0,899],[0,923]],"typesSpecifier":{"text":"./c.d.ts","range":[[0,899],[0,909]]}},{"type":"dynamic","kind":"importDefer","argument":"./call-importDefer.ts","argumentRange":[[0,949],[0,972]]},{"type":"dynamic","kind":"importDefer","argument":"./call-importDefer-typed.ts","argumentRange":[[0,994],[0,1023]],"typesSpecifier":{"text":"./c.d.ts","range":[[0,994],[0,1004]]}},{"type":"dynamic","kind":"importSource","argument":"./call-importSource.ts","argumentRange":[[0,1054],[0,1078]]},{"type":"dynamic","kind":"importSource","argument":"./call-importSource-typed.ts","argumentRange":[[0,1101],[0,1131]],"typesSpecifier":{"text":"./c.d.ts","range":[[0,1101],[0,1111]]}},{"type":"dynamic","kind":"require","argument":"./call-require.ts","argumentRange":[[0,1163],[0,1182]]},{"type":"dynamic","kind":"require","argument":"./call-require-typed.ts","argumentRange":[[0,1200],[0,1225]],"typesSpecifier":{"text":"./c.d.ts","range":[[0,1200],[0,1210]]}}]}}}
imports file:///a/m.ts | ./import.ts Es import file:///a/import.ts - - 1; ./import-typed.ts Es import file:///a/import-typed.ts file:///a/c.d.ts ./c.d.ts 1; ./importDefer.ts Es import file:///a/importDefer.ts - - 1; ./importDefer-typed.ts Es import file:///a/importDefer-typed.ts file:///a/c.d.ts ./c.d.ts 1; ./importSource.ts EsSource import file:///a/importSource.ts - - 1; ./importSource-typed.ts EsSource import file:///a/importSource-typed.ts file:///a/c.d.ts ./c.d.ts 1; ./importType.ts TsType import - file:///a/importType.ts - 1; ./importType-typed.ts TsType import - file:///a/c.d.ts ./c.d.ts 1; ./importEquals.ts Es require file:///a/importEquals.ts - - 1; ./importEquals-typed.ts Es require file:///a/importEquals-typed.ts file:///a/c.d.ts ./c.d.ts 1; ./export.ts Es import file:///a/export.ts - - 1; ./export-typed.ts Es import file:///a/export-typed.ts file:///a/c.d.ts ./c.d.ts 1; ./exportType.ts TsType import - file:///a/exportType.ts - 1; ./exportType-typed.ts TsType import - file:///a/c.d.ts ./c.d.ts 1; ./exportEquals.ts Es require file:///a/exportEquals.ts - - 1; ./exportEquals-typed.ts Es require file:///a/exportEquals-typed.ts file:///a/c.d.ts ./c.d.ts 1; ./maybeTsModuleAugmentation.ts TsModuleAugmentation import - file:///a/maybeTsModuleAugmentation.ts - 1; ./maybeTsModuleAugmentation-typed.ts TsModuleAugmentation import - file:///a/c.d.ts ./c.d.ts 1; ./call-import.ts Es import file:///a/call-import.ts - - 1 dynamic; ./call-import-typed.ts Es import file:///a/call-import-typed.ts file:///a/c.d.ts ./c.d.ts 1 dynamic; ./call-importDefer.ts Es import file:///a/call-importDefer.ts - - 1 dynamic; ./call-importDefer-typed.ts Es import file:///a/call-importDefer-typed.ts file:///a/c.d.ts ./c.d.ts 1 dynamic; ./call-importSource.ts EsSource import file:///a/call-importSource.ts - - 1 dynamic; ./call-importSource-typed.ts EsSource import file:///a/call-importSource-typed.ts file:///a/c.d.ts ./c.d.ts 1 dynamic; ./call-require.ts Require require file:///a/call-require.ts - - 1 dynamic; ./call-require-typed.ts Require require file:///a/call-require-typed.ts file:///a/c.d.ts ./c.d.ts 1 dynamic

{"version":1,"roots":["file:///a/m.js"],"sources":{"file:///a/m.js":{"kind":"module","text":"A"}},"infos":{"file:///a/m.js":{"dependencies":[{"type":"static","kind":"import","specifier":"./import.ts","specifierRange":[[0,7],[0,20]]},{"type":"static","kind":"import","specifier":"./import-typed.ts","specifierRange":[[0,36],[0,55]],"typesSpecifier":{"text":"./c.d.ts","range":[[0,36],[0,46]]}},{"type":"static","kind":"importDefer","specifier":"./importDefer.ts","specifierRange":[[0,80],[0,98]]},{"type":"static","kind":"importDefer","specifier":"./importDefer-typed.ts","specifierRange":[[0,119],[0,143]],"typesSpecifier":{"text":"./c.d.ts","range":[[0,119],[0,129]]}},{"type":"static","kind":"importSource","specifier":"./importSource.ts","specifierRange":[[0,173],[0,192]]},{"type":"static","kind":"importSource","specifier":"./importSource-typed.ts","specifierRange":[[0,214],[0,239]],"typesSpecifier":{"text":"./c.d.ts","range":[[0,214],[0,224]]}},{"type":"static","kind":"importType","specifier":"./importType.ts","specifierRange":[[0,270],[0,287]]},{"type":"static","kind":"importType","specifier":"./importType-typed.ts","specifierRange":[[0,307],[0,330]],"typesSpecifier":{"text":"./c.d.ts","range":[[0,307],[0,317]]}},{"type":"static","kind":"importEquals","specifier":"./importEquals.ts","specifierRange":[[0,359],[0,378]]},{"type":"static","kind":"importEquals","specifier":"./importEquals-typed.ts","specifierRange":[[0,400],[0,425]],"typesSpecifier":{"text":"./c.d.ts","range":[[0,400],[0,410]]}},{"type":"static","kind":"export","specifier":"./export.ts","specifierRange":[[0,456],[0,469]]},{"type":"static","kind":"export","specifier":"./export-typed.ts","specifierRange":[[0,485],[0,504]],"typesSpecifier":{"text":"./c.d.ts","range":[[0,485],[0,495]]}},{"type":"static","kind":"exportType","specifier":"./exportType.ts","specifierRange":[[0,529],[0,546]]},{"type":"static","kind":"exportType","specifier":"./exportType-typed.ts","specifierRange":[[0,566],[0,589]],"typesSpecifier":{"text":"./c.d.ts","range":[[0,566],[0,576]]}},{"type":"static","kind":"exportEquals","specifier":"./exportEquals.ts","specifierRange":[[0,618],[0,637]]},{"type":"static","kind":"exportEquals","specifier":"./exportEquals-typed.ts","specifierRange":[[0,659],[0,684]],"typesSpecifier":{"text":"./c.d.ts","range":[[0,659],[0,669]]}},{"type":"static","kind":"maybeTsModuleAugmentation","specifier":"./maybeTsModuleAugmentation.ts","specifierRange":[[0,715],[0,747]]},{"type":"static","kind":"maybeTsModuleAugmentation","specifier":"./maybeTsModuleAugmentation-typed.ts","specifierRange":[[0,782],[0,820]],"typesSpecifier":{"text":"./c.d.ts","range":[[0,782],[0,792]]}},{"type":"dynamic","kind":"import","argument":"./call-import.ts","argumentRange":[[0,864],[0,882]]},{"type":"dynamic","kind":"import","argument":"./call-import-typed.ts","argumentRange":[[0,899],[0,923]],"typesSpecifier":{"text":"./c.d.ts","range":[[0,899],[0,909]]}},{"type":"dynamic","kind":"importDefer","argument":"./call-importDefer.ts","argumentRange":[[0,949],[0,972]]},{"type":"dynamic","kind":"importDefer","argument":"./call-importDefer-typed.ts","argumentRange":[[0,994],[0,1023]],"typesSpecifier":{"text":"./c.d.ts","range":[[0,994],[0,1004]]}},{"type":"dynamic","kind":"importSource","argument":"./call-importSource.ts","argumentRange":[[0,1054],[0,1078]]},{"type":"dynamic","kind":"importSource","argument":"./call-importSource-typed.ts","argumentRange":[[0,1101],[0,1131]],"typesSpecifier":{"text":"./c.d.ts","range":[[0,1101],[0,1111]]}},{"type":"dynamic","kind":"require","argument":"./call-require.ts","argumentRange":[[0,1163],[0,1182]]},{"type":"dynamic","kind":"require","argument":"./call-require-typed.ts","argumentRange":[[0,1200],[0,1225]],"typesSpecifier":{"text":"./c.d.ts","range":[[0,1200],[0,1210]]}}]}}}
imports file:///a/m.js | ./import.ts Es import file:///a/import.ts - - 1; ./import-typed.ts Es import file:///a/import-typed.ts file:///a/c.d.ts ./c.d.ts 1; ./importDefer.ts Es import file:///a/importDefer.ts - - 1; ./importDefer-typed.ts Es import file:///a/importDefer-typed.ts file:///a/c.d.ts ./c.d.ts 1; ./importSource.ts EsSource import file:///a/importSource.ts - - 1; ./importSource-typed.ts EsSource import file:///a/importSource-typed.ts file:///a/c.d.ts ./c.d.ts 1; ./importType.ts TsType import - file:///a/importType.ts - 1; ./importType-typed.ts TsType import - file:///a/c.d.ts ./c.d.ts 1; ./importEquals.ts Es require file:///a/importEquals.ts - - 1; ./importEquals-typed.ts Es require file:///a/importEquals-typed.ts file:///a/c.d.ts ./c.d.ts 1; ./export.ts Es import file:///a/export.ts - - 1; ./export-typed.ts Es import file:///a/export-typed.ts file:///a/c.d.ts ./c.d.ts 1; ./exportType.ts TsType import - file:///a/exportType.ts - 1; ./exportType-typed.ts TsType import - file:///a/c.d.ts ./c.d.ts 1; ./exportEquals.ts Es require file:///a/exportEquals.ts - - 1; ./exportEquals-typed.ts Es require file:///a/exportEquals-typed.ts file:///a/c.d.ts ./c.d.ts 1; ./maybeTsModuleAugmentation.ts TsModuleAugmentation import - file:///a/maybeTsModuleAugmentation.ts - 1; ./maybeTsModuleAugmentation-typed.ts TsModuleAugmentation import - file:///a/c.d.ts ./c.d.ts 1; ./call-import.ts Es import file:///a/call-import.ts - - 1 dynamic; ./call-import-typed.ts Es import file:///a/call-import-typed.ts file:///a/c.d.ts ./c.d.ts 1 dynamic; ./call-importDefer.ts Es import file:///a/call-importDefer.ts - - 1 dynamic; ./call-importDefer-typed.ts Es import file:///a/call-importDefer-typed.ts file:///a/c.d.ts ./c.d.ts 1 dynamic; ./call-importSource.ts EsSource import file:///a/call-importSource.ts - - 1 dynamic; ./call-importSource-typed.ts EsSource import file:///a/call-importSource-typed.ts file:///a/c.d.ts ./c.d.ts 1 dynamic; ./call-require.ts Require require file:///a/call-require.ts - - 1 dynamic; ./call-require-typed.ts Require require file:///a/call-require-typed.ts file:///a/c.d.ts ./c.d.ts 1 dynamic

{"version":1,"roots":["file:///a/m.d.ts"],"sources":{"file:///a/m.d.ts":{"kind":"module","text":"A"}},"infos":{"file:///a/m.d.ts":{"dependencies":[{"type":"static","kind":"import","specifier":"./import.ts","specifierRange":[[0,7],[0,20]]},{"type":"static","kind":"import","specifier":"./import-typed.ts","specifierRange":[[0,36],[0,55]],"typesSpecifier":{"text":"./c.d.ts","range":[[0,36],[0,46]]}},{"type":"static","kind":"importDefer","specifier":"./importDefer.ts","specifierRange":[[0,80],[0,98]]},{"type":"static","kind":"importDefer","specifier":"./importDefer-typed.ts","specifierRange":[[0,119],[0,143]],"typesSpecifier":{"text":"./c.d.ts","range":[[0,119],[0,129]]}},{"type":"static","kind":"importSource","specifier":"./importSource.ts","specifierRange":[[0,173],[0,192]]},{"type":"static","kind":"importSource","specifier":"./importSource-typed.ts","specifierRange":[[0,214],[0,239]],"typesSpecifier":{"text":"./c.d.ts","range":[[0,214],[0,224]]}},{"type":"static","kind":"importType","specifier":"./importType.ts","specifierRange":[[0,270],[0,287]]},{"type":"static","kind":"importType","specifier":"./importType-typed.ts","specifierRange":[[0,307],[0,330]],"typesSpecifier":{"text":"./c.d.ts","range":[[0,307],[0,317]]}},{"type":"static","kind":"importEquals","specifier":"./importEquals.ts","specifierRange":[[0,359],[0,378]]},{"type":"static","kind":"importEquals","specifier":"./importEquals-typed.ts","specifierRange":[[0,400],[0,425]],"typesSpecifier":{"text":"./c.d.ts","range":[[0,400],[0,410]]}},{"type":"static","kind":"export","specifier":"./export.ts","specifierRange":[[0,456],[0,469]]},{"type":"static","kind":"export","specifier":"./export-typed.ts","specifierRange":[[0,485],[0,504]],"typesSpecifier":{"text":"./c.d.ts","range":[[0,485],[0,495]]}},{"type":"static","kind":"exportType","specifier":"./exportType.ts","specifierRange":[[0,529],[0,546]]},{"type":"static","kind":"exportType","specifier":"./exportType-typed.ts","specifierRange":[[0,566],[0,589]],"typesSpecifier":{"text":"./c.d.ts","range":[[0,566],[0,576]]}},{"type":"static","kind":"exportEquals","specifier":"./exportEquals.ts","specifierRange":[[0,618],[0,637]]},{"type":"static","kind":"exportEquals","specifier":"./exportEquals-typed.ts","specifierRange":[[0,659],[0,684]],"typesSpecifier":{"text":"./c.d.ts","range":[[0,659],[0,669]]}},{"type":"static","kind":"maybeTsModuleAugmentation","specifier":"./maybeTsModuleAugmentation.ts","specifierRange":[[0,715],[0,747]]},{"type":"static","kind":"maybeTsModuleAugmentation","specifier":"./maybeTsModuleAugmentation-typed.ts","specifierRange":[[0,782],[0,820]],"typesSpecifier":{"text":"./c.d.ts","range":[[0,782],[0,792]]}},{"type":"dynamic","kind":"import","argument":"./call-import.ts","argumentRange":[[0,864],[0,882]]},{"type":"dynamic","kind":"import","argument":"./call-import-typed.ts","argumentRange":[[0,899],[0,923]],"typesSpecifier":{"text":"./c.d.ts","range":[[0,899],[0,909]]}},{"type":"dynamic","kind":"importDefer","argument":"./call-importDefer.ts","argumentRange":[[0,949],[0,972]]},{"type":"dynamic","kind":"importDefer","argument":"./call-importDefer-typed.ts","argumentRange":[[0,994],[0,1023]],"typesSpecifier":{"text":"./c.d.ts","range":[[0,994],[0,1004]]}},{"type":"dynamic","kind":"importSource","argument":"./call-importSource.ts","argumentRange":[[0,1054],[0,1078]]},{"type":"dynamic","kind":"importSource","argument":"./call-importSource-typed.ts","argumentRange":[[0,1101],[0,1131]],"typesSpecifier":{"text":"./c.d.ts","range":[[0,1101],[0,1111]]}},{"type":"dynamic","kind":"require","argument":"./call-require.ts","argumentRange":[[0,1163],[0,1182]]},{"type":"dynamic","kind":"require","argument":"./call-require-typed.ts","argumentRange":[[0,1200],[0,1225]],"typesSpecifier":{"text":"./c.d.ts","range":[[0,1200],[0,1210]]}}]}}}
imports file:///a/m.d.ts | ./import.ts Es - - file:///a/import.ts - 1; ./import-typed.ts Es - - file:///a/c.d.ts ./c.d.ts 1; ./importDefer.ts Es - - file:///a/importDefer.ts - 1; ./importDefer-typed.ts Es - - file:///a/c.d.ts ./c.d.ts 1; ./importSource.ts EsSource - - file:///a/importSource.ts - 1; ./importSource-typed.ts EsSource - - file:///a/c.d.ts ./c.d.ts 1; ./importType.ts TsType - - file:///a/importType.ts - 1; ./importType-typed.ts TsType - - file:///a/c.d.ts ./c.d.ts 1; ./importEquals.ts Es require - file:///a/importEquals.ts - 1; ./importEquals-typed.ts Es require - file:///a/c.d.ts ./c.d.ts 1; ./export.ts Es - - file:///a/export.ts - 1; ./export-typed.ts Es - - file:///a/c.d.ts ./c.d.ts 1; ./exportType.ts TsType - - file:///a/exportType.ts - 1; ./exportType-typed.ts TsType - - file:///a/c.d.ts ./c.d.ts 1; ./exportEquals.ts Es require - file:///a/exportEquals.ts - 1; ./exportEquals-typed.ts Es require - file:///a/c.d.ts ./c.d.ts 1; ./maybeTsModuleAugmentation.ts TsModuleAugmentation import - file:///a/maybeTsModuleAugmentation.ts - 1; ./maybeTsModuleAugmentation-typed.ts TsModuleAugmentation import - file:///a/c.d.ts ./c.d.ts 1; ./call-import.ts Es - - file:///a/call-import.ts - 1; ./call-import-typed.ts Es - - file:///a/c.d.ts ./c.d.ts 1; ./call-importDefer.ts Es - - file:///a/call-importDefer.ts - 1; ./call-importDefer-typed.ts Es - - file:///a/c.d.ts ./c.d.ts 1; ./call-importSource.ts EsSource - - file:///a/call-importSource.ts - 1; ./call-importSource-typed.ts EsSource - - file:///a/c.d.ts ./c.d.ts 1; ./call-require.ts Require require - file:///a/call-require.ts - 1; ./call-require-typed.ts Require require - file:///a/c.d.ts ./c.d.ts 1

{"version":1,"roots":["file:///a/m.js"],"sources":{"file:///a/m.js":{"kind":"module","text":"A"}},"infos":{"file:///a/m.js":{"dependencies":[{"type":"static","kind":"import","specifier":"./d.json","specifierRange":[[0,0],[0,1]],"importAttributes":{"known":{"type":"unknown"}}},{"type":"static","kind":"import","specifier":"./d.json","specifierRange":[[0,0],[0,1]],"importAttributes":{"known":{"type":{"known":"json"}}}},{"type":"static","kind":"import","specifier":"./d.json","specifierRange":[[0,0],[0,1]],"importAttributes":{"known":{"type":{"known":"text"}}}}]}}}
imports file:///a/m.js | ./d.json Es import file:///a/d.json - - 3 as json

{"version":1,"roots":["file:///a/m.js"],"sources":{"file:///a/m.js":{"kind":"module","text":"A"}},"infos":{"file:///a/m.js":{"dependencies":[{"type":"dynamic","kind":"import","argument":"./b.js","argumentRange":[[0,0],[0,1]]},{"type":"dynamic","kind":"require","argument":"./b.js","argumentRange":[[0,0],[0,1]]}]}}}
imports file:///a/m.js | ./b.js Es import file:///a/b.js - - 2 dynamic

{"version":1,"roots":["file:///a/m.js"],"sources":{"file:///a/m.js":{"kind":"module","text":"A"}},"infos":{"file:///a/m.js":{"dependencies":[{"type":"dynamic","kind":"import","argument":"./b.js","argumentRange":[[0,0],[0,1]]},{"type":"static","kind":"import","specifier":"./b.js","specifierRange":[[0,0],[0,1]]}]}}}
imports file:///a/m.js | ./b.js Es import file:///a/b.js - - 2

{"version":1,"roots":["file:///a/m.js"],"sources":{"file:///a/m.js":{"kind":"module","text":"A"}},"infos":{"file:///a/m.js":{"dependencies":[{"type":"static","kind":"import","specifier":"./b.js","specifierRange":[[0,0],[0,1]]},{"type":"dynamic","kind":"import","argument":"./b.js","argumentRange":[[0,0],[0,1]]}]}}}
imports file:///a/m.js | ./b.js Es import file:///a/b.js - - 2

{"version":1,"roots":["file:///a/m.ts"],"sources":{"file:///a/m.ts":{"kind":"module","text":"A"}},"infos":{"file:///a/m.ts":{"dependencies":[{"type":"static","kind":"importType","specifier":"./b.ts","specifierRange":[[0,0],[0,1]]},{"type":"dynamic","kind":"import","argument":"./b.ts","argumentRange":[[0,0],[0,1]]}]}}}
imports file:///a/m.ts | ./b.ts TsType import file:///a/b.ts file:///a/b.ts - 2 dynamic

{"version":1,"roots":["file:///a/m.ts"],"sources":{"file:///a/m.ts":{"kind":"module","text":"A"}},"infos":{"file:///a/m.ts":{"dependencies":[{"type":"static","kind":"import","specifier":"./b.js","specifierRange":[[0,0],[0,1]]},{"type":"static","kind":"import","specifier":"./b.js","specifierRange":[[0,0],[0,1]],"typesSpecifier":{"text":"./b.d.ts","range":[[1,2],[3,4]]}}]}}}
imports file:///a/m.ts | ./b.js Es import file:///a/b.js file:///a/b.d.ts ./b.d.ts 2

{"version":1,"roots":["file:///a/m.ts"],"sources":{"file:///a/m.ts":{"kind":"module","text":"A"}},"infos":{"file:///a/m.ts":{"dependencies":[{"type":"static","kind":"import","specifier":"./b.js","specifierRange":[[0,0],[0,1]],"typesSpecifier":{"text":"./b.d.ts","range":[[1,2],[3,4]]}},{"type":"static","kind":"import","specifier":"./b.js","specifierRange":[[0,0],[0,1]],"typesSpecifier":{"text":"./c.d.ts","range":[[1,2],[3,4]]}}]}}}
imports file:///a/m.ts | ./b.js Es import file:///a/b.js file:///a/b.d.ts ./b.d.ts 2

{"version":1,"roots":["file:///a/m.ts"],"sources":{"file:///a/m.ts":{"kind":"module","text":"A"}},"infos":{"file:///a/m.ts":{"dependencies":[{"type":"static","kind":"maybeTsModuleAugmentation","specifier":"bare","specifierRange":[[0,0],[0,1]]},{"type":"static","kind":"import","specifier":"bare","specifierRange":[[0,0],[0,1]]}]}}}
imports file:///a/m.ts | bare Es import Relative import path "bare" not prefixed with / or ./ or ../ Relative import path "bare" not prefixed with / or ./ or ../ - 1

{"version":1,"roots":["file:///a/m.js"],"sources":{"file:///a/m.js":{"kind":"module","text":"A"}},"infos":{"file:///a/m.js":{"dependencies":[{"type":"static","kind":"maybeTsModuleAugmentation","specifier":"bare","specifierRange":[[0,0],[0,1]]}]}}}
imports file:///a/m.js | bare TsModuleAugmentation import - Relative import path "bare" not prefixed with / or ./ or ../ - 1

{"version":1,"roots":["file:///a/m.d.ts"],"sources":{"file:///a/m.d.ts":{"kind":"module","text":"A"}},"infos":{"file:///a/m.d.ts":{"dependencies":[{"type":"static","kind":"import","specifier":"./b.ts","specifierRange":[[0,0],[0,1]],"importAttributes":{"known":{"resolution-mode":{"known":"import"}}}}]}}}
imports file:///a/m.d.ts | ./b.ts Es import - file:///a/b.ts - 1

{"version":1,"roots":["file:///a/m.ts"],"sources":{"file:///a/m.ts":{"kind":"module","text":"A"}},"infos":{"file:///a/m.ts":{"tsReferences":[{"type":"path","text":"./p.d.ts","range":[[0,0],[0,1]]},{"type":"types","text":"./t.d.ts","range":[[0,2],[0,3]],"resolutionMode":"require"}]}}}
imports file:///a/m.ts | ./p.d.ts TsReferencePath - - file:///a/p.d.ts - 1; ./t.d.ts TsReferenceTypes require - file:///a/t.d.ts - 1

{"version":1,"roots":["file:///a/m.js"],"sources":{"file:///a/m.js":{"kind":"module","text":"A"}},"infos":{"file:///a/m.js":{"tsReferences":[{"type":"path","text":"./p.d.ts","range":[[0,0],[0,1]]},{"type":"types","text":"./t.d.ts","range":[[0,2],[0,3]],"resolutionMode":"require"}]}}}
imports file:///a/m.js | ./p.d.ts TsReferencePath - - file:///a/p.d.ts - 1

{"version":1,"roots":["file:///a/m.js"],"sources":{"file:///a/m.js":{"kind":"module","text":"A"}},"infos":{"file:///a/m.js":{"jsdocImports":[{"text":"./j.js","range":[[0,0],[0,1]],"resolutionMode":"import"}],"dependencies":[{"type":"static","kind":"import","specifier":"./j.js","specifierRange":[[0,0],[0,1]]}]}}}
imports file:///a/m.js | ./j.js JsDoc import file:///a/j.js file:///a/j.js - 2

{"version":1,"roots":["file:///a/m.js"],"kind":"code","sources":{"file:///a/m.js":{"kind":"module","text":"A"}},"infos":{"file:///a/m.js":{"jsdocImports":[{"text":"./j.js","range":[[0,0],[0,1]]}],"dependencies":[{"type":"static","kind":"import","specifier":"./j.js","specifierRange":[[0,0],[0,1]]}]}}}
imports file:///a/m.js | ./j.js Es import file:///a/j.js - - 1

{"version":1,"roots":["file:///a/m.tsx"],"sources":{"file:///a/m.tsx":{"kind":"module","text":"A"}},"infos":{"file:///a/m.tsx":{"jsxImportSource":{"text":"/lib","range":[[1,2],[3,4]]}}}}
imports file:///a/m.tsx | /lib/jsx-runtime JsxImportSource - file:///lib/jsx-runtime - - 1

{"version":1,"roots":["file:///a/m.jsx"],"sources":{"file:///a/m.jsx":{"kind":"module","text":"A"}},"infos":{"file:///a/m.jsx":{"jsxImportSource":{"text":"/lib","range":[[1,2],[3,4]]},"jsxImportSourceTypes":{"text":"/types","range":[[1,2],[3,4]]}}}}
imports file:///a/m.jsx | /lib/jsx-runtime JsxImportSource - file:///lib/jsx-runtime file:///types/jsx-runtime /types/jsx-runtime 1

{"version":1,"roots":["file:///foo.ts"],"kind":"types","sources":{"file:///foo.ts":{"kind":"module","text":"A"}},"infos":{"file:///foo.ts":{"dependencies":[{"type":"static","kind":"importType","specifier":"bar","specifierRange":[[1,30],[1,35]],"typesSpecifier":{"text":"file:///bar.d.ts","range":[[0,15],[0,33]]}}]}}}
imports file:///foo.ts | bar TsType import - file:///bar.d.ts file:///bar.d.ts 1

{"version":1,"roots":["file:///foo.ts"],"sources":{"file:///foo.ts":{"kind":"module","text":"A"}},"infos":{"file:///foo.ts":{"dependencies":[{"type":"static","kind":"importType","specifier":"bar","specifierRange":[[1,30],[1,35]],"typesSpecifier":{"text":"file:///bar.d.ts","range":[[0,15],[0,33]]}}]}}}
imports file:///foo.ts | bar TsType import - file:///bar.d.ts file:///bar.d.ts 1

{"version":1,"roots":["file:///a/m.js"],"sources":{"file:///a/m.js":{"kind":"module","text":"A"}},"infos":{"file:///a/m.js":{"dependencies":[{"type":"static","kind":"import","specifier":"mapped","specifierRange":[[0,0],[0,1]]},{"type":"static","kind":"import","specifier":"fault","specifierRange":[[0,0],[0,1]]},{"type":"static","kind":"import","specifier":"./b.js","specifierRange":[[0,0],[0,1]]}]}},"resolutions":[{"referrer":"file:///a/m.js","text":"mapped","kind":"code","to":"file:///mapped.js"},{"referrer":"file:///a/m.js","text":"mapped","kind":"types","to":"file:///mapped.d.ts"},{"referrer":"file:///a/m.js","text":"fault","kind":"code","error":{"class":"Error","message":"Refused"}},{"referrer":"file:///a/m.js","text":"fault","kind":"types","error":{"class":"Error","message":"Refused"}}]}
imports file:///a/m.js | mapped Es import file:///mapped.js file:///mapped.d.ts - 1; fault Es import Refused - - 1; ./b.js Es import file:///a/b.js - - 1

{"version":1,"roots":["file:///a/m.jsx"],"sources":{"file:///a/m.jsx":{"kind":"module","text":"A"}},"jsx":{"source":"/jsx","types":"/jsx-types","module":"jsx-dev-runtime"}}
imports file:///a/m.jsx | /jsx/jsx-dev-runtime JsxImportSource - file:///jsx/jsx-dev-runtime file:///jsx-types/jsx-dev-runtime /jsx-types/jsx-dev-runtime 1

{"version":1,"roots":["file:///a/m.ts"],"kind":"types","sources":{"file:///a/m.ts":{"kind":"module","text":"A"}},"infos":{"file:///a/m.ts":{"dependencies":[{"type":"dynamic","kind":"import","argument":"./d.js","argumentRange":[[0,7],[0,15]],"typesSpecifier":{"text":"./d.d.ts","range":[[0,7],[0,17]]}},{"type":"static","kind":"import","specifier":"./s.js","specifierRange":[[0,34],[0,42]],"typesSpecifier":{"text":"./s.d.ts","range":[[0,34],[0,44]]}}]}}}
imports file:///a/m.ts | ./d.js Es import - file:///a/d.d.ts ./d.d.ts 1 dynamic; ./s.js Es import - file:///a/s.d.ts ./s.d.ts 1

{"version":1,"roots":["file:///a/m.ts"],"kind":"types","skip_dynamic_deps":true,"sources":{"file:///a/m.ts":{"kind":"module","text":"A"}},"infos":{"file:///a/m.ts":{"dependencies":[{"type":"dynamic","kind":"import","argument":"./d.js","argumentRange":[[0,7],[0,15]],"typesSpecifier":{"text":"./d.d.ts","range":[[0,7],[0,17]]}},{"type":"static","kind":"import","specifier":"./s.js","specifierRange":[[0,34],[0,42]],"typesSpecifier":{"text":"./s.d.ts","range":[[0,34],[0,44]]}}]}}}
imports file:///a/m.ts | ./d.js Es import file:///a/d.js file:///a/d.d.ts ./d.d.ts 1 dynamic; ./s.js Es import - file:///a/s.d.ts ./s.d.ts 1

{"version":1,"roots":["file:///a/m.ts"],"skip_dynamic_deps":true,"sources":{"file:///a/m.ts":{"kind":"module","text":"A"}},"infos":{"file:///a/m.ts":{"dependencies":[{"type":"dynamic","kind":"import","argument":"./d.js","argumentRange":[[0,7],[0,15]],"typesSpecifier":{"text":"./d.d.ts","range":[[0,7],[0,17]]}}]}}}
imports file:///a/m.ts | ./d.js Es import file:///a/d.js file:///a/d.d.ts ./d.d.ts 1 dynamic

{"version":1,"roots":["file:///a/m.ts"],"kind":"code","skip_dynamic_deps":true,"sources":{"file:///a/m.ts":{"kind":"module","text":"A"}},"infos":{"file:///a/m.ts":{"dependencies":[{"type":"dynamic","kind":"import","argument":"./d.js","argumentRange":[[0,7],[0,15]],"typesSpecifier":{"text":"./d.d.ts","range":[[0,7],[0,17]]}}]}}}
imports file:///a/m.ts | ./d.js Es import file:///a/d.js - - 1 dynamic

{"version":1,"roots":["file:///a/m.wasm"],"sources":{"file:///a/m.wasm":{"kind":"module","base64":"AGFzbQEAAAA="}},"infos":{"file:///a/m.wasm":{"dependencies":[{"type":"static","kind":"import","specifier":"./b.ts","specifierRange":[[0,7],[0,15]]},{"type":"dynamic","kind":"import","argument":"./c.ts","argumentRange":[[0,24],[0,32]]},{"type":"static","kind":"importType","specifier":"./d.ts","specifierRange":[[0,42],[0,50]]},{"type":"static","kind":"import","specifier":"./e.js","specifierRange":[[0,70],[0,78]],"typesSpecifier":{"text":"./e.d.ts","range":[[0,70],[0,80]]}},{"type":"dynamic","kind":"import","argument":"./f.js","argumentRange":[[0,96],[0,104]],"typesSpecifier":{"text":"./f.d.ts","range":[[0,96],[0,106]]}}]}}}
imports file:///a/m.wasm | ./b.ts Es import file:///a/b.ts - - 1; ./c.ts Es import file:///a/c.ts - - 1 dynamic; ./d.ts TsType import - file:///a/d.ts - 1; ./e.js Es import file:///a/e.js file:///a/e.d.ts ./e.d.ts 1; ./f.js Es import file:///a/f.js file:///a/f.d.ts ./f.d.ts 1 dynamic

{"version":1,"roots":["file:///a/m.wasm"],"kind":"types","sources":{"file:///a/m.wasm":{"kind":"module","base64":"AGFzbQEAAAA="}},"infos":{"file:///a/m.wasm":{"dependencies":[{"type":"static","kind":"import","specifier":"./b.ts","specifierRange":[[0,7],[0,15]]},{"type":"dynamic","kind":"import","argument":"./c.ts","argumentRange":[[0,24],[0,32]]},{"type":"static","kind":"importType","specifier":"./d.ts","specifierRange":[[0,42],[0,50]]},{"type":"static","kind":"import","specifier":"./e.js","specifierRange":[[0,70],[0,78]],"typesSpecifier":{"text":"./e.d.ts","range":[[0,70],[0,80]]}},{"type":"dynamic","kind":"import","argument":"./f.js","argumentRange":[[0,96],[0,104]],"typesSpecifier":{"text":"./f.d.ts","range":[[0,96],[0,106]]}}]}}}
imports file:///a/m.wasm | ./b.ts Es import file:///a/b.ts - - 1; ./c.ts Es import file:///a/c.ts - - 1 dynamic; ./d.ts TsType import - file:///a/d.ts - 1; ./e.js Es import - file:///a/e.d.ts ./e.d.ts 1; ./f.js Es import - file:///a/f.d.ts ./f.d.ts 1 dynamic

{"version":1,"roots":["file:///a/m.wasm"],"skip_dynamic_deps":true,"sources":{"file:///a/m.wasm":{"kind":"module","base64":"AGFzbQEAAAA="}},"infos":{"file:///a/m.wasm":{"dependencies":[{"type":"static","kind":"import","specifier":"./b.ts","specifierRange":[[0,7],[0,15]]},{"type":"dynamic","kind":"import","argument":"./c.ts","argumentRange":[[0,24],[0,32]]},{"type":"static","kind":"importType","specifier":"./d.ts","specifierRange":[[0,42],[0,50]]},{"type":"static","kind":"import","specifier":"./e.js","specifierRange":[[0,70],[0,78]],"typesSpecifier":{"text":"./e.d.ts","range":[[0,70],[0,80]]}},{"type":"dynamic","kind":"import","argument":"./f.js","argumentRange":[[0,96],[0,104]],"typesSpecifier":{"text":"./f.d.ts","range":[[0,96],[0,106]]}}]}}}
imports file:///a/m.wasm | ./b.ts Es import file:///a/b.ts - - 1; ./c.ts Es import file:///a/c.ts - - 1 dynamic; ./d.ts TsType import - file:///a/d.ts - 1; ./e.js Es import file:///a/e.js file:///a/e.d.ts ./e.d.ts 1; ./f.js Es import file:///a/f.js file:///a/f.d.ts ./f.d.ts 1 dynamic

{"version":1,"roots":["file:///a/m.wasm"],"kind":"types","skip_dynamic_deps":true,"sources":{"file:///a/m.wasm":{"kind":"module","base64":"AGFzbQEAAAA="}},"infos":{"file:///a/m.wasm":{"dependencies":[{"type":"static","kind":"import","specifier":"./b.ts","specifierRange":[[0,7],[0,15]]},{"type":"dynamic","kind":"import","argument":"./c.ts","argumentRange":[[0,24],[0,32]]},{"type":"static","kind":"importType","specifier":"./d.ts","specifierRange":[[0,42],[0,50]]},{"type":"static","kind":"import","specifier":"./e.js","specifierRange":[[0,70],[0,78]],"typesSpecifier":{"text":"./e.d.ts","range":[[0,70],[0,80]]}},{"type":"dynamic","kind":"import","argument":"./f.js","argumentRange":[[0,96],[0,104]],"typesSpecifier":{"text":"./f.d.ts","range":[[0,96],[0,106]]}}]}}}
imports file:///a/m.wasm | ./b.ts Es import file:///a/b.ts - - 1; ./c.ts Es import file:///a/c.ts - - 1 dynamic; ./d.ts TsType import - file:///a/d.ts - 1; ./e.js Es import - file:///a/e.d.ts ./e.d.ts 1; ./f.js Es import file:///a/f.js file:///a/f.d.ts ./f.d.ts 1 dynamic

{"version":1,"roots":["file:///a/m.wasm"],"sources":{"file:///a/m.wasm":{"kind":"module","base64":"AGFzbQEAAAA="}},"infos":{"file:///a/m.wasm":{"dependencies":[{"type":"static","kind":"importSource","specifier":"./w.wasm","specifierRange":[[0,7],[0,17]]},{"type":"static","kind":"importEquals","specifier":"./b.js","specifierRange":[[0,39],[0,47]]},{"type":"static","kind":"maybeTsModuleAugmentation","specifier":"./c.ts","specifierRange":[[0,69],[0,77]]},{"type":"static","kind":"exportType","specifier":"./d.ts","specifierRange":[[0,112],[0,120]]},{"type":"dynamic","kind":"require","argument":"./e.js","argumentRange":[[0,140],[0,148]]},{"type":"static","kind":"import","specifier":"bare","specifierRange":[[0,166],[0,172]]}]}}}
imports file:///a/m.wasm | ./w.wasm EsSource import file:///a/w.wasm - - 1; ./b.js Es require file:///a/b.js - - 1; ./c.ts TsModuleAugmentation import - file:///a/c.ts - 1; ./d.ts TsType import - file:///a/d.ts - 1; ./e.js Require require file:///a/e.js - - 1 dynamic; bare Es import Relative import path "bare" not prefixed with / or ./ or ../ - - 1

{"version":1,"roots":["file:///a/m.wasm"],"kind":"types","sources":{"file:///a/m.wasm":{"kind":"module","base64":"AGFzbQEAAAA=","headers":{"x-typescript-types":"./h.d.ts"}}},"infos":{"file:///a/m.wasm":{"dependencies":[{"type":"static","kind":"import","specifier":"./b.js","specifierRange":[[0,7],[0,15]],"typesSpecifier":{"text":"./b.d.ts","range":[[0,7],[0,17]]}}]}}}
imports file:///a/m.wasm | ./b.js Es import - file:///a/b.d.ts ./b.d.ts 1

{"version":1,"roots":["file:///a/m.js"],"tree":["/a/m.js","/a/x/b.ts","/a/x/c.js","/a/x/d.json","/a/y/e.mjs","/a/y/f.wasm"],"sources":{"file:///a/m.js":{"kind":"module","text":"A"}},"infos":{"file:///a/m.js":{"dependencies":[{"type":"dynamic","kind":"import","argument":[{"type":"string","value":"./x/"},{"type":"expr"}],"argumentRange":[[0,1],[0,2]]},{"type":"static","kind":"import","specifier":"./x/b.ts","specifierRange":[[1,1],[1,2]]}]}}}
imports file:///a/m.js | ./x/b.ts Es import file:///a/x/b.ts - - 2; ./x/c.js Es import file:///a/x/c.js - - 1 dynamic

{"version":1,"roots":["file:///a/m.js"],"tree":["/a/m.js","/a/x/b.ts","/a/x/c.js","/a/x/d.json","/a/y/e.mjs","/a/y/f.wasm"],"sources":{"file:///a/m.js":{"kind":"module","text":"A"}},"infos":{"file:///a/m.js":{"dependencies":[{"type":"dynamic","kind":"import","argument":[{"type":"string","value":"./x/"},{"type":"expr"}],"argumentRange":[[0,1],[0,2]],"typesSpecifier":{"text":"./x/b.d.ts","range":[[0,3],[0,4]]}}]}}}
imports file:///a/m.js | ./x/b.ts Es import file:///a/x/b.ts file:///a/x/b.d.ts ./x/b.d.ts 1 dynamic; ./x/c.js Es import file:///a/x/c.js file:///a/x/b.d.ts ./x/b.d.ts 1 dynamic

{"version":1,"roots":["file:///a/m.d.ts"],"tree":["/a/m.js","/a/x/b.ts","/a/x/c.js","/a/x/d.json","/a/y/e.mjs","/a/y/f.wasm"],"sources":{"file:///a/m.d.ts":{"kind":"module","text":"A"}},"infos":{"file:///a/m.d.ts":{"dependencies":[{"type":"dynamic","kind":"import","argument":[{"type":"string","value":"./x/"},{"type":"expr"}],"argumentRange":[[0,1],[0,2]]}]}}}
imports file:///a/m.d.ts | ./x/b.ts Es - - file:///a/x/b.ts - 1; ./x/c.js Es - - file:///a/x/c.js - 1

{"version":1,"imports":[{"referrer":"file:///a/deno.json","imports":["./b.ts","bare","mapped","./b.ts"]}],"resolutions":[{"referrer":"file:///a/deno.json","text":"mapped","kind":"code","to":"file:///mapped.js"},{"referrer":"file:///a/deno.json","text":"mapped","kind":"types","to":"file:///mapped.d.ts"}]}
imports file:///a/deno.json | ./b.ts - - file:///a/b.ts - 0; bare - - Relative import path "bare" not prefixed with / or ./ or ../ - 0; mapped - - file:///mapped.d.ts - 0"#;

#[test]
fn imports_are_kept(rt: HostRuntime) -> Result<(), Fail> {
    all_answer(rt.alloc(), IMPORTS)
}

// What graphs know without a walk: redirects and a circle of them, texts of imports, modules and errors, assets, slots that are marked
// and removed, parts of dependencies at columns (its code stands at 20, its types at 40, its imports at 20 and 30, 8 characters long
// each), declarations, and what fast checks found.
const KNOWN: &str =
    r#"{"version":1,"roots":["x:a","x:d","x:e"],"sources":{"x:a":{"kind":"redirect","to":"x:b"},"x:b":{"kind":"redirect","to":"x:c"},"x:c":{"kind":"module","text":"A"},"x:e":{"kind":"redirect","to":"x:e"},"x:d":{"kind":"redirect","to":"x:e"}},"max_redirects":10} & pending x:p, redirect x:q x:p, redirect x:1 x:2, redirect x:2 x:3, redirect x:3 x:1, redirect x:0 x:1
resolved x:c | x:c has x:c true
resolved x:a | x:c has x:c true
resolved x:d | x:e fails: Too many redirects. false
resolved x:q | x:p has nothing false
resolved x:y | x:y has nothing false
resolved x:1 | x:3 has nothing false
resolved x:0 | x:3 has nothing false
resolved x:2 | x:1 has nothing false

{"version":1,"npm":{},"roots":["npm:@a/b@1/c/d.js","npm:e"]}
packaged npm:@a/b@1/c/d.js | npm:@a/b@1/c/d.js @a/b@1 c/d.js Unknown false
packaged npm:e | npm:e e@* - Unknown false
counted | 2: npm:@a/b@1/c/d.js npm:e 0
marked | npm:@a/b@1/c/d.js -; npm:e -;
resolved npm:e | npm:e has npm:e true
walked all one from npm:e | module npm:e;

{"version":1,"roots":["file:///a.js","file:///b.js","file:///b.d.ts"],"sources":{"file:///a.js":{"kind":"module","text":"A"},"file:///b.js":{"kind":"module","text":"A"},"file:///b.d.ts":{"kind":"module","text":"A"}},"infos":{"file:///a.js":{"dependencies":[{"type":"static","kind":"import","specifier":"./b.js","specifierRange":[[0,7],[0,15]],"typesSpecifier":{"text":"./b.d.ts","range":[[0,7],[0,17]]}}]}}}
led ./b.js file:///a.js | file:///b.js file:///b.d.ts

{"version":1,"roots":["file:///a.js","file:///b.js"],"sources":{"file:///a.js":{"kind":"module","text":"A"},"file:///b.js":{"kind":"module","text":"A"}},"infos":{"file:///a.js":{"dependencies":[{"type":"static","kind":"import","specifier":"./b.js","specifierRange":[[0,7],[0,15]]}]}}}
led ./b.js file:///a.js | file:///b.js file:///b.js
led ./c.js file:///a.js | none none
led ./b.js file:///c.js | none none

{"version":1,"roots":["file:///a.js","file:///b.d.ts"],"sources":{"file:///a.js":{"kind":"module","text":"A"},"file:///b.d.ts":{"kind":"module","text":"A"}},"infos":{"file:///a.js":{"dependencies":[{"type":"static","kind":"importType","specifier":"./b.d.ts","specifierRange":[[0,7],[0,17]]}]}}}
led ./b.d.ts file:///a.js | file:///b.d.ts file:///b.d.ts

{"version":1,"roots":["file:///r.js","file:///a.js","file:///b.js","file:///c.js"],"sources":{"file:///r.js":{"kind":"redirect","to":"file:///a.js"},"file:///a.js":{"kind":"module","text":"A"},"file:///b.js":{"kind":"redirect","to":"file:///c.js"},"file:///c.js":{"kind":"module","text":"A"}},"infos":{"file:///a.js":{"dependencies":[{"type":"static","kind":"import","specifier":"./b.js","specifierRange":[[0,7],[0,15]]}]}}}
led ./b.js file:///r.js | file:///c.js file:///c.js

{"version":1,"roots":["file:///a.js"],"sources":{"file:///a.js":{"kind":"module","text":"A"}},"infos":{"file:///a.js":{"dependencies":[{"type":"static","kind":"import","specifier":"./b.js","specifierRange":[[0,7],[0,15]]}]}}}
led ./b.js file:///a.js | none none

{"version":1,"roots":["file:///d","file:///b.js"],"sources":{"file:///d":{"kind":"module","text":"A"},"file:///b.js":{"kind":"module","text":"A"}},"infos":{"file:///d":{"dependencies":[{"type":"static","kind":"import","specifier":"./b.js","specifierRange":[[0,7],[0,15]]}]}}} & imports file:///d
led ./b.js file:///d | file:///b.js file:///b.js

{"version":1,"roots":["file:///a.js","file:///b.js","file:///b.d.ts","file:///c.d.ts"],"sources":{"file:///a.js":{"kind":"module","text":"A"},"file:///b.js":{"kind":"module","text":"A"},"file:///b.d.ts":{"kind":"redirect","to":"file:///c.d.ts"},"file:///c.d.ts":{"kind":"module","text":"A"}},"infos":{"file:///a.js":{"dependencies":[{"type":"static","kind":"import","specifier":"./b.js","specifierRange":[[0,7],[0,15]]}]},"file:///b.js":{"tsReferences":[{"type":"types","text":"./b.d.ts","range":[[0,7],[0,17]],"resolutionMode":"import"}]}}}
led ./b.js file:///a.js | file:///b.js file:///c.d.ts

{"version":1,"roots":["file:///a.js"],"sources":{"file:///a.js":{"kind":"module","text":"A"},"file:///b.js":{"kind":"module","text":"A"}},"infos":{"file:///a.js":{"dependencies":[{"type":"static","kind":"import","specifier":"./b.js","specifierRange":[[0,7],[0,15]]}]},"file:///b.js":{"tsReferences":[{"type":"types","text":"./b.d.ts","range":[[0,7],[0,17]],"resolutionMode":"import"}]}}}
led ./b.js file:///a.js | file:///b.js file:///b.js

{"version":1,"roots":["file:///m.wasm","file:///b.js","file:///b.d.ts"],"sources":{"file:///m.wasm":{"kind":"module","base64":"AGFzbQEAAAA="},"file:///b.js":{"kind":"module","text":"A"},"file:///b.d.ts":{"kind":"module","text":"A"}},"infos":{"file:///m.wasm":{"dependencies":[{"type":"static","kind":"import","specifier":"./b.js","specifierRange":[[0,7],[0,15]],"typesSpecifier":{"text":"./b.d.ts","range":[[0,7],[0,17]]}}]}}}
led ./b.js file:///m.wasm | file:///b.js file:///b.d.ts

{"version":1,"roots":["file:///a.js","file:///m.wasm"],"sources":{"file:///a.js":{"kind":"module","text":"A"},"file:///m.wasm":{"kind":"module","base64":"AGFzbQEAAAA="}},"infos":{"file:///a.js":{"dependencies":[{"type":"static","kind":"import","specifier":"./m.wasm","specifierRange":[[0,7],[0,17]]}]}}}
led ./m.wasm file:///a.js | file:///m.wasm file:///m.wasm

{"version":1,"roots":["file:///a.js","file:///m.wasm"],"sources":{"file:///a.js":{"kind":"module","text":"A"},"file:///m.wasm":{"kind":"module","base64":"AA=="}},"infos":{"file:///a.js":{"dependencies":[{"type":"static","kind":"import","specifier":"./m.wasm","specifierRange":[[0,7],[0,17]]}]}}}
led ./m.wasm file:///a.js | none none

{"version":1,"roots":["file:///a.js","file:///e"],"sources":{"file:///b.js":{"kind":"module","text":"A"},"file:///b.d.ts":{"kind":"module","text":"A"},"file:///a.js":{"kind":"module","text":"A"},"file:///r.js":{"kind":"redirect","to":"file:///c.js"},"file:///e":{"kind":"module","text":"A"}},"infos":{"file:///b.js":{"tsReferences":[{"type":"types","text":"./b.d.ts","range":[[0,7],[0,17]],"resolutionMode":"import"}]},"file:///a.js":{"dependencies":[{"type":"static","kind":"import","specifier":"./b.js","specifierRange":[[0,7],[0,15]]},{"type":"static","kind":"import","specifier":"./r.js","specifierRange":[[0,24],[0,32]]}]},"file:///e":{"dependencies":[{"type":"static","kind":"import","specifier":"./b.js","specifierRange":[[0,7],[0,15]]}]}}} & pending file:///d.js, imports file:///e
preferred file:///b.js | file:///b.d.ts
preferred file:///a.js | file:///a.js
preferred file:///r.js | error
preferred file:///d.js | none
counted | 7: file:///a.js> file:///b.d.ts file:///b.js 1

{"version":1,"roots":["file:///foo.js","file:///d.js"],"sources":{"file:///foo.js":{"kind":"redirect","to":"file:///foo_actual.js"},"file:///foo_actual.js":{"kind":"module","text":"A"},"file:///bar.js":{"kind":"redirect","to":"file:///bar_actual.js"},"file:///d.js":{"kind":"redirect","to":"file:///bar.js"}}} & pending file:///c.js
known | file:///bar_actual.js error; file:///foo_actual.js module; file:///bar.js error; file:///foo.js module;

{"version":1,"roots":["file:///a.js","file:///b.js"],"sources":{"file:///a.js":{"kind":"module","text":"A"},"file:///b.js":{"kind":"module","text":"A"}},"infos":{"file:///a.js":{"dependencies":[{"type":"static","kind":"import","specifier":"./d.txt","specifierRange":[[0,7],[0,16]],"importAttributes":{"known":{"type":{"known":"text"}}}},{"type":"static","kind":"import","specifier":"./b.js","specifierRange":[[1,7],[1,15]]}]}}}
assets | file:///d.txt

{"version":1,"roots":["file:///a.js"],"sources":{"file:///a.js":{"kind":"module","text":"A"}},"infos":{"file:///a.js":{"dependencies":[{"type":"static","kind":"import","specifier":"./d.txt","specifierRange":[[0,7],[0,16]],"importAttributes":{"known":{"type":{"known":"text"}}}},{"type":"static","kind":"import","specifier":"./d.txt","specifierRange":[[1,7],[1,16]]}]}}}
assets

{"version":1,"roots":["file:///b.js","file:///a.js"],"sources":{"file:///b.js":{"kind":"module","text":"A"},"file:///a.js":{"kind":"module","text":"A"},"file:///d.txt":{"kind":"redirect","to":"file:///e.txt"}},"infos":{"file:///b.js":{"dependencies":[{"type":"static","kind":"import","specifier":"./d.txt","specifierRange":[[0,7],[0,16]],"importAttributes":{"known":{"type":{"known":"text"}}}}]},"file:///a.js":{"dependencies":[{"type":"static","kind":"import","specifier":"./f.css","specifierRange":[[0,7],[0,16]],"importAttributes":{"known":{"type":{"known":"css"}}}},{"type":"static","kind":"import","specifier":"./d.txt","specifierRange":[[1,7],[1,16]],"importAttributes":{"known":{"type":{"known":"bytes"}}}}]}}}
assets | file:///f.css file:///e.txt

{"version":1,"roots":["file:///a.js"],"sources":{"file:///a.js":{"kind":"module","text":"A"}},"infos":{"file:///a.js":{"dependencies":[{"type":"static","kind":"importSource","specifier":"./w.wasm","specifierRange":[[0,7],[0,17]]}]}}}
assets

{"version":1,"roots":["file:///m.wasm","file:///b.js"],"sources":{"file:///m.wasm":{"kind":"module","base64":"AGFzbQEAAAA="},"file:///b.js":{"kind":"module","text":"A"}},"infos":{"file:///m.wasm":{"dependencies":[{"type":"static","kind":"import","specifier":"./d.txt","specifierRange":[[0,7],[0,16]],"importAttributes":{"known":{"type":{"known":"text"}}}},{"type":"static","kind":"import","specifier":"./b.js","specifierRange":[[1,7],[1,15]]}]}}}
assets | file:///d.txt

{"version":1,"roots":["file:///a.js"],"sources":{"file:///a.js":{"kind":"module","text":"A"}},"infos":{"file:///a.js":{"sourceMapUrl":{"text":"./a.map","range":[[9,1],[9,5]]}}}}
assets

{"version":1} & pending x:1
marked | x:1 pending;

{"version":1} & asset x:1
marked | x:1 pending-asset;

{"version":1,"roots":["x:1"],"sources":{"x:1":{"kind":"external"}}}
marked | x:1 -;

{"version":1,"roots":["file:///r.js"],"sources":{"file:///r.js":{"kind":"module","text":""},"x:1":{"kind":"module","text":""}},"infos":{"file:///r.js":{"dependencies":[{"type":"static","kind":"import","specifier":"x:1","specifierRange":[[0,0],[0,0]],"importAttributes":{"known":{"type":{"known":"text"}}}}]}}}
marked | file:///r.js -; x:1 external-asset;

{"version":1,"roots":["x:1"],"sources":{"x:1":{"kind":"module","text":""}}}
marked | x:1 -;

{"version":1,"roots":["x:1"]}
marked | x:1 -;

{"version":1,"roots":["x:b","x:a"]} & pending x:b
marked | x:a -; x:b pending;

{"version":1,"roots":["x:b","x:a"]} & pending x:b, removed x:a
marked | x:b pending;

{"version":1,"roots":["file:///a.js"],"sources":{"file:///a.js":{"kind":"module","text":"A"}},"infos":{"file:///a.js":{"tsReferences":[{"type":"types","text":"./a.d.ts","range":[[0,5],[0,7]]}],"dependencies":[{"type":"static","kind":"import","specifier":"./b.js","specifierRange":[[0,20],[0,28]],"typesSpecifier":{"text":"./b.d.ts","range":[[0,40],[0,50]]},"importAttributes":{"known":{"type":{"known":"json"}}}},{"type":"static","kind":"importType","specifier":"./b.js","specifierRange":[[0,30],[0,38]]}]}}}
placed file:///a.js 0:19 | 99 99
placed file:///a.js 0:20 | 20 20
placed file:///a.js 0:24 | 20 20
placed file:///a.js 0:28 | 20 20
placed file:///a.js 0:29 | 99 99
placed file:///a.js 0:30 | 99 30
placed file:///a.js 0:45 | 99 40
placed file:///a.js 0:51 | 99 99
placed file:///a.js 1:24 | 99 99
named file:///a.js | file:///b.js file:///b.d.ts file:///a.d.ts true

{"version":1,"roots":["file:///m.wasm"],"sources":{"file:///m.wasm":{"kind":"module","base64":"AGFzbQEAAAAHBQEBYQIA"}}}
declared file:///m.wasm | 15 export declare const a: WebAssembly.Memory; true false

{"version":1,"roots":["file:///m.wasm"],"sources":{"file:///m.wasm":{"kind":"module","base64":"AGFzbQEAAAAHBQEBYQIA"}}} & pruned
declared file:///m.wasm | 15  true false

{"version":1,"roots":["file:///a.ts","file:///d.ts","file:///e.ts"],"sources":{"file:///a.ts":{"kind":"module","text":"A"},"file:///d.ts":{"kind":"module","text":"A"},"file:///e.ts":{"kind":"module","text":"A"},"file:///b.ts":{"kind":"module","text":"A"},"file:///c.ts":{"kind":"module","text":"A"}},"infos":{"file:///a.ts":{"dependencies":[{"type":"static","kind":"import","specifier":"./b.ts","specifierRange":[[0,7],[0,15]]}]},"file:///d.ts":{"dependencies":[{"type":"static","kind":"import","specifier":"./b.ts","specifierRange":[[0,7],[0,15]]}]},"file:///e.ts":{"dependencies":[{"type":"static","kind":"import","specifier":"./c.ts","specifierRange":[[0,7],[0,15]]}]}}} & checked file:///a.ts file:///e.ts, checked file:///d.ts, removed file:///e.ts
checked | ./c.ts found; ; ; ./b.ts refused;

{"version":1,"roots":["file:///a.ts","file:///d.ts","file:///e.ts"],"sources":{"file:///a.ts":{"kind":"module","text":"A"},"file:///d.ts":{"kind":"module","text":"A"},"file:///e.ts":{"kind":"module","text":"A"},"file:///b.ts":{"kind":"module","text":"A"},"file:///c.ts":{"kind":"module","text":"A"}},"infos":{"file:///a.ts":{"dependencies":[{"type":"static","kind":"import","specifier":"./b.ts","specifierRange":[[0,7],[0,15]]}]},"file:///d.ts":{"dependencies":[{"type":"static","kind":"import","specifier":"./b.ts","specifierRange":[[0,7],[0,15]]}]},"file:///e.ts":{"dependencies":[{"type":"static","kind":"import","specifier":"./c.ts","specifierRange":[[0,7],[0,15]]}]}}} & checked file:///a.ts file:///e.ts, checked file:///a.ts, checked file:///b.ts file:///e.ts, removed file:///e.ts
checked | ./b.ts refused; ./c.ts found; ; ./b.ts;

{"version":1,"roots":["file:///a.ts","file:///d.ts","file:///e.ts"],"sources":{"file:///a.ts":{"kind":"module","text":"A"},"file:///d.ts":{"kind":"module","text":"A"},"file:///e.ts":{"kind":"module","text":"A"},"file:///b.ts":{"kind":"module","text":"A"},"file:///c.ts":{"kind":"module","text":"A"}},"infos":{"file:///a.ts":{"dependencies":[{"type":"static","kind":"import","specifier":"./b.ts","specifierRange":[[0,7],[0,15]]}]},"file:///d.ts":{"dependencies":[{"type":"static","kind":"import","specifier":"./b.ts","specifierRange":[[0,7],[0,15]]}]},"file:///e.ts":{"dependencies":[{"type":"static","kind":"import","specifier":"./c.ts","specifierRange":[[0,7],[0,15]]}]}}} & code, checked file:///a.ts file:///e.ts, checked file:///d.ts, removed file:///e.ts
checked | ./b.ts; ; ; ./b.ts;

{"version":1,"roots":[]} & locked https://a.test/ https://b.test/, locked file:///a file:///b, pinned 1.0.0 jsr @s/p ^1, pinned x jsr @s/q ^1
json | {"modules":[],"packages":{"@s/p@^1":"@s/p@1.0.0"},"redirects":{"https://a.test/":"https://b.test/"},"roots":[]}

{"version":1,"roots":[]} & locked npm:a https://b.test/, locked jsr:@a/b https://b.test/, locked a https://b.test/, locked https://c.test/ b, locked https://a.test/ npm:a, locked https://a.test/ file:///d, pinned 1.0.0 npm r ^1, pinned 1.0 jsr @s/p ^1, pinned 1.0.0 jsr @s/p ^1, pinned 1.2.0 jsr @s/p ^1
json | {"modules":[],"packages":{"@s/p@^1":"@s/p@1.2.0"},"redirects":{"https://a.test/":"file:///d"},"roots":[]}

{"version":1,"roots":["file:///a.ts","file:///d.ts","file:///e.ts"],"sources":{"file:///a.ts":{"kind":"module","text":"A"},"file:///d.ts":{"kind":"module","text":"A"},"file:///e.ts":{"kind":"module","text":"A"},"file:///b.ts":{"kind":"module","text":"A"},"file:///c.ts":{"kind":"module","text":"A"}},"infos":{"file:///a.ts":{"dependencies":[{"type":"static","kind":"import","specifier":"./b.ts","specifierRange":[[0,7],[0,15]]}]},"file:///d.ts":{"dependencies":[{"type":"static","kind":"import","specifier":"./b.ts","specifierRange":[[0,7],[0,15]]}]},"file:///e.ts":{"dependencies":[{"type":"static","kind":"import","specifier":"./c.ts","specifierRange":[[0,7],[0,15]]}]}}} & checked file:///a.ts file:///e.ts, checked file:///d.ts, removed file:///e.ts, pruned
checked | ./b.ts; ; ./b.ts;"#;

#[test]
fn graphs_know(rt: HostRuntime) -> Result<(), Fail> {
    all_answer(rt.alloc(), KNOWN)
}

// Walks by options that no command has, over graphs that no build makes; walks that skip what each entry would still add; and errors as
// texts without places.
const WALKED: &str =
    r#"{"version":1,"roots":["file:///a.ts","file:///b.js","file:///checked.js","file:///c.ts","file:///d.ts"],"sources":{"file:///a.ts":{"kind":"module","text":"A"},"file:///b.js":{"kind":"module","text":"A"},"file:///checked.js":{"kind":"module","text":"A"},"file:///c.ts":{"kind":"module","text":"A"},"file:///d.ts":{"kind":"module","text":"A"}},"infos":{"file:///a.ts":{"dependencies":[{"type":"static","kind":"import","specifier":"./b.js","specifierRange":[[0,7],[0,15]]},{"type":"static","kind":"import","specifier":"./checked.js","specifierRange":[[0,24],[0,38]]}]},"file:///b.js":{"dependencies":[{"type":"static","kind":"import","specifier":"./c.ts","specifierRange":[[0,7],[0,15]]}]},"file:///checked.js":{"dependencies":[{"type":"static","kind":"import","specifier":"./d.ts","specifierRange":[[0,7],[0,15]]}]}}}
walked types one from file:///a.ts | module file:///a.ts; module file:///checked.js; module file:///d.ts;
walked all one from file:///a.ts | module file:///a.ts; module file:///b.js; module file:///c.ts; module file:///checked.js; module file:///d.ts;

{"version":1,"roots":["file:///d","file:///a.js","file:///b.js","file:///c.js"],"sources":{"file:///d":{"kind":"module","text":"A"},"file:///a.js":{"kind":"module","text":"A"},"file:///b.js":{"kind":"module","text":"A"},"file:///c.js":{"kind":"module","text":"A"}},"infos":{"file:///d":{"dependencies":[{"type":"static","kind":"import","specifier":"./b.js","specifierRange":[[0,7],[0,15]]},{"type":"static","kind":"import","specifier":"./c.js","specifierRange":[[0,24],[0,32]]}]}}} & imports file:///d
walked code from file:///a.js | module file:///c.js; module file:///b.js; module file:///a.js;

{"version":1,"roots":["file:///d","file:///a.js","file:///b.js"],"sources":{"file:///d":{"kind":"module","text":"A"},"file:///a.js":{"kind":"module","text":"A"},"file:///b.js":{"kind":"module","text":"A"}},"infos":{"file:///d":{"dependencies":[{"type":"static","kind":"import","specifier":"./b.js","specifierRange":[[0,7],[0,15]]}]}}} & imports file:///d
walked code from file:///a.js file:///b.js | module file:///a.js; module file:///b.js;

{"version":1,"roots":["file:///b.js"],"sources":{"file:///b.js":{"kind":"module","text":"A"}}} & pending file:///a.js
walked all from file:///a.js file:///none.js file:///b.js | module file:///b.js;

{"version":1,"roots":["file:///b.js"],"sources":{"file:///b.js":{"kind":"module","text":"A"}}} & pending file:///a.js, asset file:///c.js
walked all dynamic from file:///a.js file:///c.js file:///b.js | module file:///b.js;

{"version":1,"roots":["file:///a.js","file:///m.wasm","file:///b.js","file:///c.js","file:///d.js","file:///d.d.ts"],"sources":{"file:///a.js":{"kind":"module","text":"A"},"file:///m.wasm":{"kind":"module","base64":"AGFzbQEAAAA="},"file:///b.js":{"kind":"module","text":"A"},"file:///c.js":{"kind":"module","text":"A"},"file:///d.js":{"kind":"module","text":"A"},"file:///d.d.ts":{"kind":"module","text":"A"}},"infos":{"file:///a.js":{"dependencies":[{"type":"static","kind":"import","specifier":"./m.wasm","specifierRange":[[0,7],[0,17]]}]},"file:///m.wasm":{"dependencies":[{"type":"static","kind":"import","specifier":"./b.js","specifierRange":[[0,7],[0,15]]},{"type":"dynamic","kind":"import","argument":"./c.js","argumentRange":[[0,24],[0,32]]},{"type":"static","kind":"import","specifier":"./d.js","specifierRange":[[0,42],[0,50]],"typesSpecifier":{"text":"./d.d.ts","range":[[0,42],[0,52]]}}]}}}
walked all fast from file:///m.wasm file:///b.js | module file:///m.wasm; module file:///d.d.ts; module file:///d.js; module file:///b.js;

{"version":1,"roots":["file:///d","file:///m.wasm","file:///a.js","file:///b.js"],"sources":{"file:///d":{"kind":"module","text":"A"},"file:///m.wasm":{"kind":"module","base64":"AGFzbQEAAAA="},"file:///a.js":{"kind":"module","text":"A"},"file:///b.js":{"kind":"module","text":"A"}},"infos":{"file:///d":{"dependencies":[{"type":"static","kind":"import","specifier":"./m.wasm","specifierRange":[[0,7],[0,17]]}]},"file:///m.wasm":{"dependencies":[{"type":"static","kind":"import","specifier":"./b.js","specifierRange":[[0,7],[0,15]]}]}}} & imports file:///d
walked code from file:///a.js | module file:///m.wasm; module file:///b.js; module file:///a.js;

{"version":1,"roots":["file:///a.ts","file:///d.ts","file:///e.ts"],"sources":{"file:///a.ts":{"kind":"module","text":"A"},"file:///d.ts":{"kind":"module","text":"A"},"file:///e.ts":{"kind":"module","text":"A"},"file:///b.ts":{"kind":"module","text":"A"},"file:///c.ts":{"kind":"module","text":"A"}},"infos":{"file:///a.ts":{"dependencies":[{"type":"static","kind":"import","specifier":"./b.ts","specifierRange":[[0,7],[0,15]]}]},"file:///d.ts":{"dependencies":[{"type":"static","kind":"import","specifier":"./b.ts","specifierRange":[[0,7],[0,15]]}]},"file:///e.ts":{"dependencies":[{"type":"static","kind":"import","specifier":"./c.ts","specifierRange":[[0,7],[0,15]]}]}}} & checked file:///a.ts file:///e.ts, checked file:///d.ts, removed file:///e.ts
walked all from file:///a.ts | module file:///a.ts; module file:///b.ts;
walked all fast from file:///a.ts | module file:///a.ts; module file:///c.ts;
walked types fast from file:///a.ts | module file:///a.ts; module file:///c.ts;
walked code fast from file:///a.ts | module file:///a.ts; module file:///b.ts;

{"version":1,"roots":["file:///a.js","file:///b.js","file:///r.js"],"sources":{"file:///a.js":{"kind":"module","text":"A"},"file:///b.js":{"kind":"module","text":"A"},"file:///r.js":{"kind":"redirect","to":"file:///b.js"}},"infos":{"file:///a.js":{"dependencies":[{"type":"static","kind":"import","specifier":"./b.js","specifierRange":[[0,7],[0,15]]}]}}}
skipped all from file:///a.js file:///r.js | module file:///a.js; redirect file:///r.js file:///b.js;

{"version":1,"roots":["file:///a.js","file:///a.d.ts","file:///b.js"],"sources":{"file:///a.js":{"kind":"module","text":"A"},"file:///a.d.ts":{"kind":"module","text":"A"},"file:///b.js":{"kind":"module","text":"A"}},"infos":{"file:///a.js":{"tsReferences":[{"type":"types","text":"./a.d.ts","range":[[0,7],[0,17]],"resolutionMode":"import"}],"dependencies":[{"type":"static","kind":"import","specifier":"./b.js","specifierRange":[[0,27],[0,35]]}]}}}
skipped all from file:///a.js | module file:///a.js; module file:///a.d.ts;

{"version":1,"roots":["file:///m.wasm","file:///b.js","file:///c.js"],"sources":{"file:///m.wasm":{"kind":"module","base64":"AGFzbQEAAAA="},"file:///b.js":{"kind":"module","text":"A"},"file:///c.js":{"kind":"module","text":"A"}},"infos":{"file:///m.wasm":{"dependencies":[{"type":"static","kind":"import","specifier":"./b.js","specifierRange":[[0,7],[0,15]]}]}}}
skipped all from file:///m.wasm file:///c.js | module file:///m.wasm; module file:///c.js;

{"version":1,"roots":["file:///a.js"],"sources":{"file:///a.js":{"kind":"module","text":"A"}},"infos":{"file:///a.js":{"dependencies":[{"type":"dynamic","kind":"import","argument":"./b.js","argumentRange":[[0,7],[0,15]]},{"type":"static","kind":"import","specifier":"./c.js","specifierRange":[[0,25],[0,33]]}]}}} & asset file:///b.js, pending file:///c.js
failed all dynamic from file:///a.js

{"version":1,"roots":["file:///a.js"],"sources":{"file:///a.js":{"kind":"module","text":"A"},"file:///b.js":{"kind":"module","text":"A"}},"infos":{"file:///a.js":{"dependencies":[{"type":"static","kind":"import","specifier":"http://","specifierRange":[[0,7],[0,16]],"typesSpecifier":{"text":"https://","range":[[0,7],[0,17]]}}]}}}
failed all from file:///a.js | Failed resolving types. Invalid URL "https://".; Invalid URL "http://".;

{"version":1,"roots":["file:///a.js","file:///d"],"sources":{"file:///d":{"kind":"module","text":"A"}},"infos":{"file:///d":{"dependencies":[{"type":"static","kind":"import","specifier":"./m.js","specifierRange":[[0,7],[0,15]]},{"type":"static","kind":"import","specifier":"./n.js","specifierRange":[[0,24],[0,32]]}]}}} & imports file:///d
failed code from file:///a.js | Module not found "file:///n.js".; Module not found "file:///m.js".; Module not found "file:///a.js".;

{"version":1,"roots":["file:///a.js","file:///d","file:///e"],"sources":{"file:///d":{"kind":"module","text":"A"},"file:///e":{"kind":"module","text":"A"}},"infos":{"file:///d":{"dependencies":[{"type":"static","kind":"import","specifier":"./m.js","specifierRange":[[0,7],[0,15]]}]},"file:///e":{"dependencies":[{"type":"static","kind":"import","specifier":"./n.js","specifierRange":[[0,7],[0,15]]}]}}} & imports file:///d, imports file:///e
failed code from file:///a.js | Module not found "file:///n.js".; Module not found "file:///m.js".; Module not found "file:///a.js".;

{"version":1,"roots":["file:///a.js","file:///b.js","file:///d"],"sources":{"file:///d":{"kind":"module","text":"A"}},"infos":{"file:///d":{"dependencies":[{"type":"static","kind":"import","specifier":"./b.js","specifierRange":[[0,7],[0,15]]}]}}} & imports file:///d
failed code from file:///a.js file:///b.js | Module not found "file:///a.js".; Module not found "file:///b.js".;

{"version":1,"roots":["file:///a.js","file:///d"],"sources":{"file:///a.js":{"kind":"module","text":"A"},"file:///d":{"kind":"module","text":"A"}},"infos":{"file:///d":{"dependencies":[{"type":"static","kind":"import","specifier":"c","specifierRange":[[0,7],[0,10]]},{"type":"static","kind":"importType","specifier":"./m.d.ts","specifierRange":[[0,19],[0,29]]}]}}} & imports file:///d
failed code from file:///a.js

{"version":1,"roots":["file:///a.js"],"sources":{}} & asset file:///a.js
failed code from file:///a.js

{"version":1,"roots":["file:///a.cts"],"sources":{}} & unsupported file:///a.cts
failed code from file:///a.cts | Expected a JavaScript or TypeScript module, but identified a Cts module. Importing these types of modules is currently not supported.  Specifier: file:///a.cts;"#;

#[test]
fn walks_are_taken(rt: HostRuntime) -> Result<(), Fail> {
    all_answer(rt.alloc(), WALKED)
}

// The text of graphs that no build makes.
const PRINTED: &str = r#"{"version":1,"roots":["x:1"]} & removed x:1
json | {"modules":[],"redirects":{},"roots":["x:1"]}

{"version":1,"roots":["x:2","file:///d"],"sources":{"x:2":{"kind":"module","text":""},"file:///d":{"kind":"module","text":""}},"infos":{"file:///d":{"dependencies":[{"type":"static","kind":"import","specifier":"./b.js","specifierRange":[[0,7],[0,15]]}]}}} & imports x:2, imports file:///d, removed file:///b.js
json | {"imports":[{"dependencies":[],"referrer":"x:2"},{"dependencies":[{"code":{"resolutionMode":"import","span":{"end":{"character":15,"line":0},"start":{"character":7,"line":0}},"specifier":"file:///b.js"},"specifier":"./b.js"}],"referrer":"file:///d"}],"modules":[],"redirects":{},"roots":["x:2","file:///d"]}

{"version":1,"roots":["x:0","x:1"],"sources":{"x:0":{"kind":"module","text":""},"x:1":{"kind":"external"},"x:2":{"kind":"module","text":""}},"infos":{"x:0":{"dependencies":[{"type":"static","kind":"import","specifier":"x:2","specifierRange":[[0,0],[0,0]],"importAttributes":{"known":{"type":{"known":"text"}}}}]}}} & asset x:3, removed x:0
json | {"modules":[{"kind":"external","specifier":"x:1"},{"kind":"external","specifier":"x:2"},{"error":"[INTERNAL ERROR] A pending module load never completed.","specifier":"x:3"}],"redirects":{},"roots":["x:0","x:1"]}

{"version":1,"roots":["x:2","x:3"],"sources":{"x:2":{"kind":"redirect","to":"x:2"},"x:3":{"kind":"error","class":"Error","message":"Access denied"}}} & pending x:1
json | {"modules":[{"error":"[INTERNAL ERROR] A pending module load never completed.","specifier":"x:1"},{"error":"Too many redirects.","specifier":"x:2"},{"error":"Access denied","specifier":"x:3"}],"redirects":{},"roots":["x:2","x:3"]}

{"version":1,"roots":["file:///r.js"],"sources":{"file:///r.js":{"kind":"module","text":""},"https://h/x.css":{"kind":"module","text":""},"x:1":{"kind":"module","text":"A","headers":{"content-type":"text/javascript"}}},"infos":{"file:///r.js":{"dependencies":[{"type":"static","kind":"import","specifier":"node:fs","specifierRange":[[0,0],[0,0]]},{"type":"static","kind":"import","specifier":"https://h/x.css","specifierRange":[[0,0],[0,0]],"importAttributes":{"known":{"type":{"known":"text"}}}},{"type":"static","kind":"import","specifier":"x:1","specifierRange":[[0,0],[0,0]]}]}}} & removed file:///r.js, open x:1
json | {"imports":[{"dependencies":[{"assertionType":"css","specifier":"t"}],"referrer":"x:1"}],"modules":[{"kind":"external","specifier":"https://h/x.css"},{"kind":"node","moduleName":"fs","specifier":"node:fs"},{"kind":"esm","size":1,"specifier":"x:1","typesDependency":{"dependency":null,"specifier":""}}],"redirects":{},"roots":["file:///r.js"]}

{"version":1,"roots":["file:///foo.ts"],"sources":{"file:///foo.ts":{"kind":"module","text":"A"},"file:///bar.d.ts":{"kind":"module","text":"A"}},"infos":{"file:///foo.ts":{"dependencies":[{"type":"static","kind":"importType","specifier":"bar","specifierRange":[[0,7],[0,12]],"typesSpecifier":{"text":"file:///bar.d.ts","range":[[0,7],[0,25]]}}]}}} & pruned, pruned
json | {"modules":[{"dependencies":[{"specifier":"bar"}],"kind":"esm","mediaType":"TypeScript","size":1,"specifier":"file:///foo.ts"}],"redirects":{},"roots":["file:///foo.ts"]}

{"version":1,"roots":["file:///r.js","x:2","x:3"],"sources":{"file:///r.js":{"kind":"module","text":""},"x:1":{"kind":"module","text":""},"x:2":{"kind":"external"}},"infos":{"file:///r.js":{"dependencies":[{"type":"static","kind":"import","specifier":"x:1","specifierRange":[[0,7],[0,12]],"importAttributes":{"known":{"type":{"known":"text"}}}}]}}} & asset x:3, pruned
json | {"modules":[{"dependencies":[{"assertionType":"text","code":{"resolutionMode":"import","span":{"end":{"character":12,"line":0},"start":{"character":7,"line":0}},"specifier":"x:1"},"specifier":"x:1"}],"kind":"esm","mediaType":"JavaScript","size":0,"specifier":"file:///r.js"},{"kind":"external","specifier":"x:1"},{"kind":"external","specifier":"x:2"},{"error":"[INTERNAL ERROR] A pending module load never completed.","specifier":"x:3"}],"redirects":{},"roots":["file:///r.js","x:2","x:3"]}

{"version":1,"roots":["file:///r.js","x:2","x:3"],"sources":{"file:///r.js":{"kind":"module","text":""},"x:1":{"kind":"module","text":""},"x:2":{"kind":"external"}},"infos":{"file:///r.js":{"dependencies":[{"type":"static","kind":"import","specifier":"x:1","specifierRange":[[0,7],[0,12]],"importAttributes":{"known":{"type":{"known":"text"}}}}]}}} & asset x:3, pruned, pruned
json | {"modules":[{"dependencies":[{"assertionType":"text","code":{"resolutionMode":"import","span":{"end":{"character":12,"line":0},"start":{"character":7,"line":0}},"specifier":"x:1"},"specifier":"x:1"}],"kind":"esm","mediaType":"JavaScript","size":0,"specifier":"file:///r.js"},{"kind":"external","specifier":"x:1"},{"kind":"external","specifier":"x:2"},{"error":"[INTERNAL ERROR] A pending module load never completed.","specifier":"x:3"}],"redirects":{},"roots":["file:///r.js","x:2","x:3"]}

{"version":1,"roots":["file:///m.wasm"],"sources":{"file:///m.wasm":{"kind":"module","base64":"AGFzbQEAAAAHBQEBYQIA"},"file:///b.js":{"kind":"module","text":"A"},"file:///b.d.ts":{"kind":"module","text":"A"},"file:///t.d.ts":{"kind":"module","text":"A"},"file:///d.js":{"kind":"module","text":"A"}},"infos":{"file:///m.wasm":{"dependencies":[{"type":"static","kind":"import","specifier":"./b.js","specifierRange":[[0,7],[0,15]],"typesSpecifier":{"text":"./b.d.ts","range":[[0,7],[0,17]]}},{"type":"static","kind":"importType","specifier":"./t.d.ts","specifierRange":[[0,33],[0,43]]},{"type":"dynamic","kind":"import","argument":"./d.js","argumentRange":[[0,63],[0,71]]}]}}} & pruned, pruned
json | {"modules":[{"kind":"esm","mediaType":"JavaScript","size":1,"specifier":"file:///b.js"},{"kind":"esm","mediaType":"JavaScript","size":1,"specifier":"file:///d.js"},{"dependencies":[{"code":{"resolutionMode":"import","span":{"end":{"character":15,"line":0},"start":{"character":7,"line":0}},"specifier":"file:///b.js"},"specifier":"./b.js"},{"specifier":"./t.d.ts"},{"code":{"resolutionMode":"import","span":{"end":{"character":71,"line":0},"start":{"character":63,"line":0}},"specifier":"file:///d.js"},"isDynamic":true,"specifier":"./d.js"}],"kind":"wasm","size":15,"specifier":"file:///m.wasm"}],"redirects":{},"roots":["file:///m.wasm"]}

{"version":1,"roots":["file:///a.js"],"sources":{"file:///a.js":{"kind":"module","text":"A"},"file:///b.js":{"kind":"module","text":"A"},"file:///b.d.ts":{"kind":"module","text":"A"}},"infos":{"file:///a.js":{"dependencies":[{"type":"static","kind":"import","specifier":"./b.js","specifierRange":[[0,7],[0,15]],"typesSpecifier":{"text":"./b.d.ts","range":[[0,7],[0,17]]}}]}}} & code, pruned
json | {"modules":[{"dependencies":[{"code":{"resolutionMode":"import","span":{"end":{"character":15,"line":0},"start":{"character":7,"line":0}},"specifier":"file:///b.js"},"specifier":"./b.js","type":{"resolutionMode":"import","span":{"end":{"character":17,"line":0},"start":{"character":7,"line":0}},"specifier":"file:///b.d.ts"}}],"kind":"esm","mediaType":"JavaScript","size":1,"specifier":"file:///a.js"},{"kind":"esm","mediaType":"Dts","size":1,"specifier":"file:///b.d.ts"},{"kind":"esm","mediaType":"JavaScript","size":1,"specifier":"file:///b.js"}],"redirects":{},"roots":["file:///a.js"]}"#;

#[test]
fn graphs_are_printed(rt: HostRuntime) -> Result<(), Fail> {
    all_answer(rt.alloc(), PRINTED)
}

// Whether a kind imports code (`c`), in the source phase (`s`), or types alone (`t`).
fn sign(kind: ImportKind) -> &'static str {
    match (kind.is_runtime(), kind.is_source_phase()) {
        (true, false) => "c",
        (true, true) => "s",
        (false, false) => "t",
        (false, true) => "-",
    }
}

const KINDS: [ImportKind; 9] = [
    ImportKind::Es,
    ImportKind::EsSource,
    ImportKind::Require,
    ImportKind::TsType,
    ImportKind::TsModuleAugmentation,
    ImportKind::TsReferencePath,
    ImportKind::TsReferenceTypes,
    ImportKind::JsxImportSource,
    ImportKind::JsDoc,
];

#[test]
fn kinds_are_told(rt: HostRuntime) -> Result<(), Fail> {
    let mut signs = String::new(rt.alloc());
    for kind in KINDS {
        signs.push_str(sign(kind))?;
    }
    assert!(rt; signs.as_str() == "cscttttct");
    Ok(())
}

#[test]
fn all_javascript_is_checked(rt: HostRuntime) -> Result<(), Fail> {
    let specifier = url(rt.alloc(), "file:///a.js")?;
    assert!(rt; AllCheckJs.resolve(&specifier));
    Ok(())
}
