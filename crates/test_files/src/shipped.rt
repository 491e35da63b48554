//! The examples that are shipped with the repository: each is read, printed, and read again.

use arrays::{Field, File, RecordBatch};
use arrow_json::{print_file, read_file};
use json_file::read_text;
use std::alloc::Global;
use std::sync::Arc;
use std::test::Fail;

/// `examples/dictionaries.json`, without the blanks.
static DICTIONARIES: &str =
    r#"{"schema":{"fields":[{"name":"from","type":{"name":"utf8"},"nullable":false,"children":[],"dictionary":{"id":0,"indexType":{"name":"int","isSigned":true,"bitWidth":8},"isOrdered":false}},{"name":"to","type":{"name":"utf8"},"nullable":true,"children":[],"dictionary":{"id":0,"indexType":{"name":"int","isSigned":false,"bitWidth":64},"isOrdered":false}},{"name":"class","type":{"name":"utf8"},"nullable":true,"children":[],"dictionary":{"id":1,"indexType":{"name":"int","isSigned":true,"bitWidth":32},"isOrdered":true}},{"name":"minutes","type":{"name":"int","isSigned":false,"bitWidth":16},"nullable":false,"children":[]}]},"dictionaries":[{"id":0,"data":{"count":3,"columns":[{"name":"stop","count":3,"VALIDITY":[1,1,1],"OFFSET":[0,6,13,18],"DATA":["Lisbon","Coimbra","Porto"]}]}},{"id":1,"data":[{"count":4,"columns":[{"name":"class","count":4,"VALIDITY":[1,1,0,1],"OFFSET":[0,5,11,11,16],"DATA":["first","second","","first"]}]}]}],"batches":[{"count":3,"columns":[{"name":"from","count":3,"VALIDITY":[1,1,1],"DATA":[0,0,2]},{"name":"to","count":3,"VALIDITY":[1,1,0],"DATA":["2","1","0"]},{"name":"class","count":3,"VALIDITY":[1,1,1],"DATA":[0,2,3]},{"name":"minutes","count":3,"VALIDITY":[1,1,1],"DATA":[168,107,168]}]},{"count":1,"columns":[{"name":"from","count":1,"VALIDITY":[1],"DATA":[1]},{"name":"to","count":1,"VALIDITY":[1],"DATA":["2"]},{"name":"class","count":1,"VALIDITY":[0],"DATA":[7]},{"name":"minutes","count":1,"VALIDITY":[1],"DATA":[61]}]}]}"#;

/// `examples/large.json`, without the blanks.
static LARGE: &str =
    r#"{"schema":{"fields":[{"name":"title","type":{"name":"largeutf8"},"nullable":false,"children":[]},{"name":"lines","type":{"name":"largelist"},"nullable":true,"children":[{"name":"line","type":{"name":"largeutf8"},"nullable":true,"children":[]}]},{"name":"readings","type":{"name":"list"},"nullable":true,"children":[{"name":"day","type":{"name":"largelist"},"nullable":true,"children":[{"name":"minutes","type":{"name":"int","isSigned":false,"bitWidth":16},"nullable":true,"children":[]}]}]}]},"batches":[{"count":3,"columns":[{"name":"title","count":3,"VALIDITY":[1,1,1],"OFFSET":["0","8","13","17"],"DATA":["Mensagem","Livro","Odes"]},{"name":"lines","count":3,"VALIDITY":[1,0,1],"OFFSET":["0","2","2","3"],"children":[{"name":"line","count":3,"VALIDITY":[1,1,0],"OFFSET":["0","15","27","27"],"DATA":["O mytho e nada.","Tudo vale a.",""]}]},{"name":"readings","count":3,"VALIDITY":[1,1,0],"OFFSET":[0,2,2,2],"children":[{"name":"day","count":2,"VALIDITY":[1,0],"OFFSET":["0",2,"2"],"children":[{"name":"minutes","count":2,"VALIDITY":[1,1],"DATA":[25,40]}]}]}]},{"count":1,"columns":[{"name":"title","count":1,"VALIDITY":[1],"OFFSET":["0","5"],"DATA":["Livro"]},{"name":"lines","count":1,"VALIDITY":[1],"OFFSET":["0","0"],"children":[{"name":"line","count":0,"VALIDITY":[],"OFFSET":[],"DATA":[]}]},{"name":"readings","count":1,"VALIDITY":[1],"OFFSET":[0,1],"children":[{"name":"day","count":1,"VALIDITY":[1],"OFFSET":["0","1"],"children":[{"name":"minutes","count":1,"VALIDITY":[1],"DATA":[10]}]}]}]}]}"#;

/// `examples/lists.json`, without the blanks.
static LISTS: &str =
    r#"{"schema":{"fields":[{"name":"line","type":{"name":"utf8"},"nullable":false,"children":[]},{"name":"stops","type":{"name":"list"},"nullable":true,"children":[{"name":"stop","type":{"name":"utf8"},"nullable":true,"children":[]}]},{"name":"delays","type":{"name":"list"},"nullable":true,"children":[{"name":"day","type":{"name":"list"},"nullable":true,"children":[{"name":"minutes","type":{"name":"int","isSigned":true,"bitWidth":16},"nullable":true,"children":[]}]}]}]},"batches":[{"count":3,"columns":[{"name":"line","count":3,"VALIDITY":[1,1,1],"OFFSET":[0,3,6,9],"DATA":["28E","15E","28E"]},{"name":"stops","count":3,"VALIDITY":[1,0,1],"OFFSET":[0,3,3,5],"children":[{"name":"stop","count":5,"VALIDITY":[1,1,1,1,0],"OFFSET":[0,5,11,16,22,22],"DATA":["Graca","Estrela","Prazeres","Graca",""]}]},{"name":"delays","count":3,"VALIDITY":[1,1,0],"OFFSET":[0,2,2,2],"children":[{"name":"day","count":2,"VALIDITY":[1,0],"OFFSET":[0,3,3],"children":[{"name":"minutes","count":3,"VALIDITY":[1,0,1],"DATA":[4,0,-1]}]}]}]},{"count":0,"columns":[{"name":"line","count":0,"VALIDITY":[],"OFFSET":[],"DATA":[]},{"name":"stops","count":0,"VALIDITY":[],"OFFSET":[],"children":[{"name":"stop","count":0,"VALIDITY":[],"OFFSET":[],"DATA":[]}]},{"name":"delays","count":0,"VALIDITY":[],"OFFSET":[],"children":[{"name":"day","count":0,"VALIDITY":[],"OFFSET":[],"children":[{"name":"minutes","count":0,"VALIDITY":[],"DATA":[]}]}]}]}]}"#;

/// `examples/mixed.json`, without the blanks.
static MIXED: &str =
    r#"{"schema":{"fields":[{"name":"city","type":{"name":"utf8"},"nullable":true,"children":[]},{"name":"capital","type":{"name":"bool"},"nullable":false,"children":[]},{"name":"people","type":{"name":"int","isSigned":true,"bitWidth":64},"nullable":true,"children":[]}]},"batches":[{"count":3,"columns":[{"name":"city","count":3,"VALIDITY":[1,1,1],"OFFSET":[0,6,11,18],"DATA":["Lisbon","Braga","Coimbra"]},{"name":"capital","count":3,"VALIDITY":[1,1,1],"DATA":[true,false,false]},{"name":"people","count":3,"VALIDITY":[1,1,0],"DATA":["545923","193324","0"]}]},{"count":2,"columns":[{"name":"city","count":2,"VALIDITY":[1,0],"OFFSET":[0,6,6],"DATA":["Lisbon",""]},{"name":"capital","count":2,"VALIDITY":[1,1],"DATA":[1,0]},{"name":"people","count":2,"VALIDITY":[1,1],"DATA":["545796","1"]}]}]}"#;

/// `examples/primitive.json`, without the blanks.
static PRIMITIVE: &str =
    r#"{"schema":{"fields":[{"name":"int8_nullable","type":{"name":"int","isSigned":true,"bitWidth":8},"nullable":true,"children":[]},{"name":"int8_nonnullable","type":{"name":"int","isSigned":true,"bitWidth":8},"nullable":false,"children":[]},{"name":"int16_nullable","type":{"name":"int","isSigned":true,"bitWidth":16},"nullable":true,"children":[]},{"name":"int16_nonnullable","type":{"name":"int","isSigned":true,"bitWidth":16},"nullable":false,"children":[]},{"name":"int32_nullable","type":{"name":"int","isSigned":true,"bitWidth":32},"nullable":true,"children":[]},{"name":"int32_nonnullable","type":{"name":"int","isSigned":true,"bitWidth":32},"nullable":false,"children":[]},{"name":"int64_nullable","type":{"name":"int","isSigned":true,"bitWidth":64},"nullable":true,"children":[]},{"name":"int64_nonnullable","type":{"name":"int","isSigned":true,"bitWidth":64},"nullable":false,"children":[]},{"name":"uint8_nullable","type":{"name":"int","isSigned":false,"bitWidth":8},"nullable":true,"children":[]},{"name":"uint8_nonnullable","type":{"name":"int","isSigned":false,"bitWidth":8},"nullable":false,"children":[]},{"name":"uint16_nullable","type":{"name":"int","isSigned":false,"bitWidth":16},"nullable":true,"children":[]},{"name":"uint16_nonnullable","type":{"name":"int","isSigned":false,"bitWidth":16},"nullable":false,"children":[]},{"name":"uint32_nullable","type":{"name":"int","isSigned":false,"bitWidth":32},"nullable":true,"children":[]},{"name":"uint32_nonnullable","type":{"name":"int","isSigned":false,"bitWidth":32},"nullable":false,"children":[]},{"name":"uint64_nullable","type":{"name":"int","isSigned":false,"bitWidth":64},"nullable":true,"children":[]},{"name":"uint64_nonnullable","type":{"name":"int","isSigned":false,"bitWidth":64},"nullable":false,"children":[]}]},"batches":[{"count":7,"columns":[{"name":"int8_nullable","count":7,"VALIDITY":[1,0,1,1,1,0,1],"DATA":[127,-51,-77,-42,39,5,-128]},{"name":"int8_nonnullable","count":7,"VALIDITY":[1,1,1,1,1,1,1],"DATA":[79,90,-81,-128,-87,123,127]},{"name":"int16_nullable","count":7,"VALIDITY":[0,0,1,1,1,1,1],"DATA":[7217,448,-7821,-32768,32767,-21791,4387]},{"name":"int16_nonnullable","count":7,"VALIDITY":[1,1,1,1,1,1,1],"DATA":[-14828,-32768,-12713,3119,32767,11253,25872]},{"name":"int32_nullable","count":7,"VALIDITY":[1,1,1,0,0,1,0],"DATA":[815197173,-666675784,83701445,-2147483648,462506568,2147483647,345149974]},{"name":"int32_nonnullable","count":7,"VALIDITY":[1,1,1,1,1,1,1],"DATA":[-2030898992,718740631,-714996310,-2147483648,-1746923944,1061882268,2147483647]},{"name":"int64_nullable","count":7,"VALIDITY":[1,1,1,1,1,0,0],"DATA":["-4799773866722395701","-5047133331331585613","-9223372036854775808","-1494621104906185029","-2065308459163319487","9223372036854775807","7309580353423607791"]},{"name":"int64_nonnullable","count":7,"VALIDITY":[1,1,1,1,1,1,1],"DATA":["9223372036854775807","-2075983412389837905","-9223372036854775808","4161265164549378204","-3722169465224900546","-5404417257782229850","-4127928450105335868"]},{"name":"uint8_nullable","count":7,"VALIDITY":[1,0,1,1,0,1,1],"DATA":[108,174,5,240,255,0,35]},{"name":"uint8_nonnullable","count":7,"VALIDITY":[1,1,1,1,1,1,1],"DATA":[0,184,255,25,70,144,226]},{"name":"uint16_nullable","count":7,"VALIDITY":[1,1,1,1,0,1,1],"DATA":[0,12019,64488,60146,477,41831,65535]},{"name":"uint16_nonnullable","count":7,"VALIDITY":[1,1,1,1,1,1,1],"DATA":[18570,38786,0,65535,18314,31399,875]},{"name":"uint32_nullable","count":7,"VALIDITY":[1,0,1,1,0,1,0],"DATA":[4263750489,3903048561,4294967295,1928306034,3966871642,0,4205432371]},{"name":"uint32_nonnullable","count":7,"VALIDITY":[1,1,1,1,1,1,1],"DATA":[3490539644,1678183598,3026288551,0,813798476,2706815822,4294967295]},{"name":"uint64_nullable","count":7,"VALIDITY":[1,1,0,1,1,0,1],"DATA":["14386721551401057895","4780252542352354429","18446744073709551615","9136340361787268303","5065794071733652472","0","1568445242374299292"]},{"name":"uint64_nonnullable","count":7,"VALIDITY":[1,1,1,1,1,1,1],"DATA":["18446744073709551615","8228022536579370953","14728290474566863229","3288026623726396242","0","9345494871550555776","5342525694557857710"]}]},{"count":10,"columns":[{"name":"int8_nullable","count":10,"VALIDITY":[0,1,1,1,0,1,1,0,1,1],"DATA":[43,-123,62,-51,127,-128,-53,-34,65,21]},{"name":"int8_nonnullable","count":10,"VALIDITY":[1,1,1,1,1,1,1,1,1,1],"DATA":[-47,-128,24,126,12,-40,-80,-4,-9,127]},{"name":"int16_nullable","count":10,"VALIDITY":[1,0,1,1,1,1,0,1,0,1],"DATA":[32767,-21180,1684,26387,-32768,661,4690,-28730,14179,-29530]},{"name":"int16_nonnullable","count":10,"VALIDITY":[1,1,1,1,1,1,1,1,1,1],"DATA":[25600,6031,4785,10290,-19037,-32768,28093,32767,27813,-20533]},{"name":"int32_nullable","count":10,"VALIDITY":[0,1,1,1,0,1,0,1,1,0],"DATA":[-1614520491,-1583287765,1532279593,-2147483648,-107352003,1759415334,2147483647,2060898755,-889984802,-1372412346]},{"name":"int32_nonnullable","count":10,"VALIDITY":[1,1,1,1,1,1,1,1,1,1],"DATA":[1355629990,871812612,1213445801,1224830497,-2034016638,1442988112,-2140999227,-1925337005,2147483647,-2147483648]},{"name":"int64_nullable","count":10,"VALIDITY":[0,0,0,1,1,0,1,1,1,0],"DATA":["6014554989610640929","4821516767624171964","-9223372036854775808","296185558960614483","-1284547097460465219","-2802153915447964194","-4987232114955916173","4042065350787425848","4361300219435599512","9223372036854775807"]},{"name":"int64_nonnullable","count":10,"VALIDITY":[1,1,1,1,1,1,1,1,1,1],"DATA":["7726261503945231538","-8472044361332872708","-7056568227487527254","-9223372036854775808","-7246841875130988621","-5515855999883699019","-1139450364103456077","-4528391985777675099","-5938636748027406868","9223372036854775807"]},{"name":"uint8_nullable","count":10,"VALIDITY":[1,0,0,1,1,1,1,1,1,1],"DATA":[158,255,0,145,178,251,125,218,33,169]},{"name":"uint8_nonnullable","count":10,"VALIDITY":[1,1,1,1,1,1,1,1,1,1],"DATA":[8,68,37,115,255,55,20,0,60,236]},{"name":"uint16_nullable","count":10,"VALIDITY":[1,1,1,0,1,1,1,1,1,1],"DATA":[29848,65535,28516,0,31050,1450,41061,6295,54685,33185]},{"name":"uint16_nonnullable","count":10,"VALIDITY":[1,1,1,1,1,1,1,1,1,1],"DATA":[60229,65535,30054,51650,31403,0,18007,5869,14313,63983]},{"name":"uint32_nullable","count":10,"VALIDITY":[1,1,1,1,0,1,1,1,1,1],"DATA":[3035519374,4294967295,1800340609,1348083139,3620253093,3650800539,3951925198,1903019701,3160117691,0]},{"name":"uint32_nonnullable","count":10,"VALIDITY":[1,1,1,1,1,1,1,1,1,1],"DATA":[2422703495,3521406973,1787255875,580417608,0,2337893733,1071835499,585838674,1650161044,4294967295]},{"name":"uint64_nullable","count":10,"VALIDITY":[1,1,1,0,0,1,1,0,1,0],"DATA":["3011530968059510062","4773366519482824539","14324052913001539315","18446744073709551615","3638740231231475552","0","17592404943613904054","10630863990741592560","15806027733161354877","821165267941464577"]},{"name":"uint64_nonnullable","count":10,"VALIDITY":[1,1,1,1,1,1,1,1,1,1],"DATA":["14450508673877646273","7966643106194814457","7399962307039286386","16051913103898552542","15612630181440550090","7251458123106850365","0","18446744073709551615","3420409905049154276","12212801767906575987"]}]}]}"#;

/// Whether what is printed of a file reads back with its fields and rows, and is printed as the same text again; both are read without a
/// tree.
fn is_read_back(alloc: Global, text: &str) -> Result<bool, Fail> {
    let file = read_file(alloc, text.as_bytes())?;
    let printed = print_file(alloc, &file)?;
    Ok(
        is_read_without_tree(alloc, text)
            && is_read_without_tree(alloc, printed.as_str())
            && is_print_of(alloc, printed.as_str(), &file)?,
    )
}

fn is_read_without_tree(alloc: Global, text: &str) -> bool {
    read_text(alloc, text).is_ok()
}

/// Whether a text reads back with a file's fields and rows, and is printed as the same text again.
fn is_print_of(alloc: Global, text: &str, file: &File) -> Result<bool, Fail> {
    let again = read_file(alloc, text.as_bytes())?;
    let printed = print_file(alloc, &again)?;
    Ok(
        printed.as_str() == text
            && has_same_fields(file.schema().fields(), again.schema().fields())
            && has_same_rows(file.batches(), again.batches()),
    )
}

/// Whether fields have the names of the others, and may hold nulls where they may. The printed text tells their types.
fn has_same_fields(fields: &[Field], others: &[Field]) -> bool {
    fields.len() == others.len()
        && fields.iter().zip(others).all(|(field, other)| {
            field.name.as_str() == other.name.as_str() && field.nullable == other.nullable
        })
}

/// Whether batches have as many rows as the others, each.
fn has_same_rows(batches: &[Arc<RecordBatch>], others: &[Arc<RecordBatch>]) -> bool {
    batches.len() == others.len()
        && batches
            .iter()
            .zip(others)
            .all(|(batch, other)| batch.rows() == other.rows())
}

#[test]
fn examples_read_back(rt: HostRuntime) -> Result<(), Fail> {
    for text in [DICTIONARIES, LARGE, LISTS, MIXED, PRIMITIVE] {
        assert!(&rt; is_read_back(rt.alloc(), text)?, "{text}");
    }
    Ok(())
}
